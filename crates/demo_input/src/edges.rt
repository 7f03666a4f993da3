//! The edges of the demo's blocks, as updates.

ghost use Rattle.std.specs.Prelude.{OnErr, OnOk, ◌++◌, ◌+◌, ◌<◌, ◌≡◌, ◌≤◌};
ghost use Rattle.demo_input.specs.Demo.{block_lines, blocks_of, edge_line, neighbour, offset_lines, pair_lines};
ghost use Rattle.demo_input.specs.Growth.{BeginsWith};

use crate::Memory;
use itoa::Buffer;

/// Nodes with numbers in a row, each joined to those after it in its block, round the block's end, up to an offset.
#[derive(Clone, Copy)]
pub struct Block {
    base: u32,
    size: u32,
    offsets: u32,
}

/// The blocks of the demo of this size.
pub fn blocks(n: u32) -> [Block; 4]
    ensures { result ≡ blocks_of n }
{
    [
        Block {
            base: 0,
            size: 50,
            offsets: n,
        },
        Block {
            base: 50,
            size: 100,
            offsets: n.min(5),
        },
        Block {
            base: 150,
            size: 150,
            offsets: n.min(2),
        },
        Block {
            base: 300,
            size: 200,
            offsets: 1,
        },
    ]
}

/// Appends the updates of a block's edges, offset by offset.
pub fn append_block(block: Block, into: &mut Vec<u8>) -> Result<(), Memory>
    ensures ok { OnOk result (into.new.items ≡ into.old.items ++ block_lines block) }
    ensures err { OnErr result (BeginsWith into.old.items into.new.items) }
{
    for offset in 1..=block.offsets {
        append_offset(block, offset, into)?;
    }
    Ok(())
}

// Appends the updates that join each node of the block to the one at this offset.
fn append_offset(block: Block, offset: u32, into: &mut Vec<u8>) -> Result<(), Memory>
    ensures ok { OnOk result (into.new.items ≡ into.old.items ++ offset_lines block offset) }
    ensures err { OnErr result (BeginsWith into.old.items into.new.items) }
{
    let first = u64::from(block.base);
    for node in first..first + u64::from(block.size) {
        append_pair(node, neighbour(block, offset, node), into)?;
    }
    Ok(())
}

// The node that lies this many nodes on in the block, round its end.
fn neighbour(block: Block, offset: u32, node: u64) -> u64
    requires from_first { block.base ≤ node }
    requires to_last { node < block.base + block.size }
    ensures { result ≡ neighbour block offset node }
{
    let first = u64::from(block.base);
    first + (node - first + u64::from(offset)) % u64::from(block.size)
}

// Appends the update of an edge, and that of the edge back.
fn append_pair(from: u64, to: u64, into: &mut Vec<u8>) -> Result<(), Memory>
    ensures ok { OnOk result (into.new.items ≡ into.old.items ++ pair_lines from to) }
    ensures err { OnErr result (BeginsWith into.old.items into.new.items) }
{
    append_edge(from, to, into)?;
    append_edge(to, from, into)
}

fn append_edge(from: u64, to: u64, into: &mut Vec<u8>) -> Result<(), Memory>
    ensures ok { OnOk result (into.new.items ≡ into.old.items ++ edge_line from to) }
    ensures err { OnErr result (BeginsWith into.old.items into.new.items) }
{
    let mut digits = Buffer::new();
    into.extend_from_slice(br#"{"op":"update","source":"edges","csv":""#)?;
    into.extend_from_slice(digits.format(from).as_bytes())?;
    into.extend_from_slice(b",")?;
    into.extend_from_slice(digits.format(to).as_bytes())?;
    into.extend_from_slice(b",1\"}\n")?;
    Ok(())
}
