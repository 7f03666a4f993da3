//! The tables of primitives.
ghost use Rattle.std.specs.Prelude.{◌≡◌, IsTrue, Some, is_some, slice_get};
ghost use Rattle.prim_table.specs.Tables.{args1, args2, args3, found, index_of, names1, names2, names3, result1, result2, result3};

use record_text::Kind;

/// A primitive of `N` arguments: its name, the kinds of its arguments, and the kind of its answer.
#[derive(Clone, Copy, Debug)]
pub struct PrimRow<const N: usize> {
    pub name: &'static str,
    pub args: [Kind; N],
    pub result: Kind,
}

/// The primitives of one argument.
pub const ONE: [PrimRow<1>; 6] = [
    PrimRow {
        name: "neg",
        args: [Kind::Int],
        result: Kind::Int,
    },
    PrimRow {
        name: "abs",
        args: [Kind::Int],
        result: Kind::Int,
    },
    PrimRow {
        name: "sign",
        args: [Kind::Int],
        result: Kind::Int,
    },
    PrimRow {
        name: "not",
        args: [Kind::Int],
        result: Kind::Int,
    },
    PrimRow {
        name: "len",
        args: [Kind::Text],
        result: Kind::Int,
    },
    PrimRow {
        name: "int_of",
        args: [Kind::Text],
        result: Kind::Int,
    },
];

/// The primitives of two arguments.
pub const TWO: [PrimRow<2>; 18] = [
    PrimRow {
        name: "add",
        args: [Kind::Int; 2],
        result: Kind::Int,
    },
    PrimRow {
        name: "sub",
        args: [Kind::Int; 2],
        result: Kind::Int,
    },
    PrimRow {
        name: "mul",
        args: [Kind::Int; 2],
        result: Kind::Int,
    },
    PrimRow {
        name: "div",
        args: [Kind::Int; 2],
        result: Kind::Int,
    },
    PrimRow {
        name: "mod",
        args: [Kind::Int; 2],
        result: Kind::Int,
    },
    PrimRow {
        name: "min",
        args: [Kind::Int; 2],
        result: Kind::Int,
    },
    PrimRow {
        name: "max",
        args: [Kind::Int; 2],
        result: Kind::Int,
    },
    PrimRow {
        name: "eq",
        args: [Kind::Int; 2],
        result: Kind::Int,
    },
    PrimRow {
        name: "ne",
        args: [Kind::Int; 2],
        result: Kind::Int,
    },
    PrimRow {
        name: "lt",
        args: [Kind::Int; 2],
        result: Kind::Int,
    },
    PrimRow {
        name: "le",
        args: [Kind::Int; 2],
        result: Kind::Int,
    },
    PrimRow {
        name: "gt",
        args: [Kind::Int; 2],
        result: Kind::Int,
    },
    PrimRow {
        name: "ge",
        args: [Kind::Int; 2],
        result: Kind::Int,
    },
    PrimRow {
        name: "and",
        args: [Kind::Int; 2],
        result: Kind::Int,
    },
    PrimRow {
        name: "or",
        args: [Kind::Int; 2],
        result: Kind::Int,
    },
    PrimRow {
        name: "text_eq",
        args: [Kind::Text; 2],
        result: Kind::Int,
    },
    PrimRow {
        name: "text_lt",
        args: [Kind::Text; 2],
        result: Kind::Int,
    },
    PrimRow {
        name: "starts",
        args: [Kind::Text; 2],
        result: Kind::Int,
    },
];

/// The primitives of three arguments.
pub const THREE: [PrimRow<3>; 2] = [
    PrimRow {
        name: "pick",
        args: [Kind::Int; 3],
        result: Kind::Int,
    },
    PrimRow {
        name: "part",
        args: [Kind::Text, Kind::Int, Kind::Int],
        result: Kind::Text,
    },
];

/// The row of `ONE` at this place.
pub fn row1(at: u8) -> PrimRow<1>
    requires { IsTrue (is_some (args1 at)) }
    ensures name { slice_get names1 at ≡ Some result.name.now }
    ensures args { args1 at ≡ Some result.args }
    ensures result { result1 at ≡ Some result.result }
{
    ONE[at as usize]
}

/// The row of `TWO` at this place.
pub fn row2(at: u8) -> PrimRow<2>
    requires { IsTrue (is_some (args2 at)) }
    ensures name { slice_get names2 at ≡ Some result.name.now }
    ensures args { args2 at ≡ Some result.args }
    ensures result { result2 at ≡ Some result.result }
{
    TWO[at as usize]
}

/// The row of `THREE` at this place.
pub fn row3(at: u8) -> PrimRow<3>
    requires { IsTrue (is_some (args3 at)) }
    ensures name { slice_get names3 at ≡ Some result.name.now }
    ensures args { args3 at ≡ Some result.args }
    ensures result { result3 at ≡ Some result.result }
{
    THREE[at as usize]
}

/// A primitive: its place in the table of its number of arguments.
#[derive(Clone, Copy, Debug, PartialEq, Eq)]
pub enum PrimId {
    One(u8),
    Two(u8),
    Three(u8),
}

/// The primitive of a name, or `None` where no table has the name.
pub fn find(name: &[u8]) -> Option<PrimId>
    ensures { result ≡ found name.now }
{
    if let Some(at) = index_in_one(name) {
        return Some(PrimId::One(at));
    }
    if let Some(at) = index_in_two(name) {
        return Some(PrimId::Two(at));
    }
    match index_in_three(name) {
        Some(at) => Some(PrimId::Three(at)),
        None => None,
    }
}

fn index_in_one(name: &[u8]) -> Option<u8>
    ensures { result ≡ index_of names1 name.now }
{
    match ONE.iter().position(|row| row.name.as_bytes() == name) {
        Some(at) => Some(at as u8),
        None => None,
    }
}

fn index_in_two(name: &[u8]) -> Option<u8>
    ensures { result ≡ index_of names2 name.now }
{
    match TWO.iter().position(|row| row.name.as_bytes() == name) {
        Some(at) => Some(at as u8),
        None => None,
    }
}

fn index_in_three(name: &[u8]) -> Option<u8>
    ensures { result ≡ index_of names3 name.now }
{
    match THREE.iter().position(|row| row.name.as_bytes() == name) {
        Some(at) => Some(at as u8),
        None => None,
    }
}
