//! The answers of the primitives.
ghost use Rattle.std.specs.Prelude.{◌≡◌, [], ◌∷◌, ◌≤◌, length, IfOk, pos, unsigned_abs, nat_eq, take, drop, string_bytes};
ghost use Rattle.std.specs.Result.{IsOk};
ghost use Rattle.std.specs.Str.Parse.{without_leading_sign};
ghost use Rattle.std.specs.List.{starts_with};
ghost use Rattle.std.specs.Str.{chars, encode_utf8_all};
ghost use Rattle.record_text.specs.declared.atom.Atom.TheVariants.{Text};
ghost use Rattle.record_text.specs.KindLists.{kind_of};
ghost use Rattle.prim_table.specs.Primitives.{clamped, count_of, number_of, quotient, remainder, text_part, truth};
ghost use Rattle.prim_table.specs.Tables.{args1, args2, args3, prim1, prim2, prim3, result1, result2, result3};

use record_text::{Atom, Kind, Memory, ShortText, TextFault};
use std::alloc::Global;

// The most digits of a number.
const MAX_DIGITS: usize = 19;

// By the arguments' kinds, the answer of the primitive at each place.
macro_rules! cases {
    ($at:expr, $args:expr; $($kinds:pat => { $($place:literal => $answer:expr,)+ })+ $(; else $other:expr)?) => {
        match $args {
            $($kinds => match $at {
                $($place => $answer,)+
                _ => unreachable!(),
            },)+
            $(_ => $other,)?
        }
    };
}

/// The answer of the primitive at this place of `ONE`; `Memory` only where the answer is a text.
pub fn apply1(at: u8, a: &Atom) -> Result<Atom, Memory>
    requires { args1 at ≡ Some (kind_of a.now ∷ []) }
    ensures value { IfOk result (λ answer. prim1 at a.now ≡ Some answer) }
    ensures kind { IfOk result (λ answer. result1 at ≡ Some (kind_of answer)) }
    ensures int { result1 at ≡ Some Kind.Int → IsOk result }
{
    let answer = cases!(at, a;
        Atom::Int(a) => {
            0 => 0i64.saturating_sub(*a),
            1 => size(*a),
            2 => a.signum(),
            3 => truth(*a == 0),
        }
        Atom::Text(a) => {
            4 => a.as_str().len() as i64,
            5 => number(a.as_str()),
        }
    );
    Ok(Atom::Int(answer))
}

/// The answer of the primitive at this place of `TWO`; `Memory` only where the answer is a text.
pub fn apply2(at: u8, a: &Atom, b: &Atom) -> Result<Atom, Memory>
    requires { args2 at ≡ Some (kind_of a.now ∷ kind_of b.now ∷ []) }
    ensures value { IfOk result (λ answer. prim2 at a.now b.now ≡ Some answer) }
    ensures kind { IfOk result (λ answer. result2 at ≡ Some (kind_of answer)) }
    ensures int { result2 at ≡ Some Kind.Int → IsOk result }
{
    let answer = cases!(at, (a, b);
        (Atom::Int(a), Atom::Int(b)) => {
            0 => a.saturating_add(*b),
            1 => a.saturating_sub(*b),
            2 => a.saturating_mul(*b),
            3 => divided(*a, *b),
            4 => rest(*a, *b),
            5 => (*a).min(*b),
            6 => (*a).max(*b),
            7 => truth(a == b),
            8 => truth(a != b),
            9 => truth(*a < *b),
            10 => truth(*a <= *b),
            11 => truth(*b < *a),
            12 => truth(*b <= *a),
            13 => truth(*a != 0 && *b != 0),
            14 => truth(*a != 0 || *b != 0),
        }
        (Atom::Text(a), Atom::Text(b)) => {
            15 => truth(a == b),
            16 => truth(a < b),
            17 => truth(begins(a.as_str(), b.as_str())),
        }
        ; else unreachable!()
    );
    Ok(Atom::Int(answer))
}

/// The answer of the primitive at this place of `THREE`; `Memory` only where the answer is a text.
pub fn apply3(alloc: Global, at: u8, a: &Atom, b: &Atom, c: &Atom) -> Result<Atom, Memory>
    requires { args3 at ≡ Some (kind_of a.now ∷ kind_of b.now ∷ kind_of c.now ∷ []) }
    ensures value { IfOk result (λ answer. prim3 at a.now b.now c.now ≡ Some answer) }
    ensures kind { IfOk result (λ answer. result3 at ≡ Some (kind_of answer)) }
    ensures int { result3 at ≡ Some Kind.Int → IsOk result }
{
    cases!(at, (a, b, c);
        (Atom::Int(a), Atom::Int(b), Atom::Int(c)) => {
            0 => Ok(Atom::Int(if *a != 0 { *b } else { *c })),
        }
        (Atom::Text(a), Atom::Int(b), Atom::Int(c)) => {
            1 => part(alloc, a.as_str(), *b, *c),
        }
        ; else unreachable!()
    )
}

fn truth(holds: bool) -> i64
    ensures { result ≡ truth holds }
{
    if holds { 1 } else { 0 }
}

fn size(a: i64) -> i64
    ensures { result ≡ clamped (pos (unsigned_abs a)) }
{
    a.checked_abs().unwrap_or(i64::MAX)
}

fn divided(a: i64, b: i64) -> i64
    ensures { result ≡ quotient a b }
{
    if b == 0 {
        0
    } else {
        a.checked_div_euclid(b).unwrap_or(i64::MAX)
    }
}

fn rest(a: i64, b: i64) -> i64
    ensures { result ≡ remainder a b }
{
    if b == 0 {
        0
    } else {
        a.checked_rem_euclid(b).unwrap_or(0)
    }
}

fn number(text: &str) -> i64
    ensures { result ≡ number_of text.now }
{
    if MAX_DIGITS < digits(text) {
        return 0;
    }
    text.parse::<i64>().unwrap_or(0)
}

fn digits(text: &str) -> usize
    ensures { result ≡ length (without_leading_sign text.now) }
{
    let bytes = text.as_bytes();
    match bytes.first() {
        Some(b'-' | b'+') => bytes.len() - 1,
        _ => bytes.len(),
    }
}

fn begins(text: &str, front: &str) -> bool
    ensures { result ≡ starts_with nat_eq text.now front.now }
{
    text.as_bytes().starts_with(front.as_bytes())
}

fn part(alloc: Global, text: &str, left_out: i64, kept: i64) -> Result<Atom, Memory>
    requires { length text.now ≤ 255 }
    ensures { IfOk result (λ answer. answer ≡ Text (text_part text.now left_out kept)) }
{
    let text = front(alloc, after(text, count(left_out)), count(kept))?;
    match ShortText::new(alloc, text.as_str()) {
        Ok(text) => Ok(Atom::Text(text)),
        Err(TextFault::Long) => unreachable!(),
        Err(TextFault::Memory) => Err(Memory),
    }
}

// The text after its first characters.
fn after(text: &str, left_out: usize) -> &str
    ensures { chars result.now ≡ drop left_out (chars text.now) }
{
    if left_out == 0 {
        return text;
    }
    let mut rest = text.chars();
    match rest.next() {
        Some(_) => after(rest.as_str(), left_out - 1),
        None => text,
    }
}

// The first characters of a text.
fn front(alloc: Global, text: &str, kept: usize) -> Result<String, Memory>
    ensures { IfOk result (λ taken. string_bytes taken ≡ encode_utf8_all (take kept (chars text.now))) }
{
    text.chars().take(kept).collect(alloc)
}

fn count(asked: i64) -> usize
    ensures { result ≡ count_of asked }
{
    if asked < 0 { 0 } else { asked as usize }
}
