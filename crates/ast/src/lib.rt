// The tree file (document 01, "The tree file"): the refusals 1 to 5, and 39 (document 02, M-104).
#![tactic(auto)]

pub mod bodies;
mod contents;
pub mod node;
pub mod plain;
mod structure;
mod texts;

ghost use Rattle.std.specs.Prelude.{◌≡◌, ◌*◌, ◌≤◌, length, drop};
ghost use Rattle.ast.specs.File.{read_tree};
ghost use Rattle.ast.specs.inner.Room.{Room};
ghost use Rattle.ast.specs.inner.Answer.{answer_of, parts_answer, bodies_answer};
ghost use Rattle.lent.specs.Lists.{sum};
ghost use Rattle.lent.specs.inner.Answers.{answer_number};

use lent::refusal::Refusal;

// The contents of a tree file: specs/File.antt. The node count is at byte 0; an entry of a node is its kind and its
// child count.
pub const FILE_TEXT_COUNT: usize = 2;

pub const FILE_LENGTHS: usize = 3;

pub const NODE_SIZE: usize = 2;

// The kinds of node by number: specs/Node.antt, `number_of`.
pub const KIND_PROGRAM: u8 = 1;

pub const KIND_BLOCK: u8 = 2;

pub const KIND_IF: u8 = 3;

pub const KIND_ELIF: u8 = 4;

pub const KIND_FOR: u8 = 5;

pub const KIND_RETURN: u8 = 6;

pub const KIND_EXPR_STMT: u8 = 7;

pub const KIND_VAR_DECL: u8 = 8;

pub const KIND_FN_DECL: u8 = 9;

pub const KIND_TABLE: u8 = 10;

pub const KIND_ITEM: u8 = 11;

pub const KIND_ARRAY: u8 = 12;

pub const KIND_ARRAY_ACCESS: u8 = 13;

pub const KIND_ARRAY_MUT: u8 = 14;

pub const KIND_CALL: u8 = 15;

pub const KIND_ASSIGN: u8 = 16;

pub const KIND_BINARY: u8 = 17;

pub const KIND_UNARY: u8 = 18;

pub const KIND_NUM: u8 = 19;

pub const KIND_TEXT: u8 = 20;

pub const KIND_NAME: u8 = 21;

pub const KIND_TRUE: u8 = 22;

pub const KIND_FALSE: u8 = 23;

// Operators of a Binary by number: specs/Flat.antt, `bin_tok_number`. Those that the lowering names.
pub const TOK_LT_EQ: u8 = 7;

pub const TOK_PIPE_PIPE: u8 = 12;

// Limits of a tree file: nodes, bytes of a text, depth, loops nested.
pub const NODES: u64 = 1024;

pub const TEXT_BYTES: u8 = 40;

pub const DEPTH: u64 = 32;

pub const LOOPS: u64 = 8;

// The checks of the bodies: texts (3), the nodes' own (5 and 39), structure (4). total is the size of the texts.
fn read_bodies(
    count: u64,
    lengths: &[u8],
    entries: &[u8],
    total: usize,
    bodies: &[u8],
) -> Result<(), Refusal>
    requires count_bound { (count ≤ 64) × (1 ≤ length lengths.now) × (length lengths.now ≤ 64) × (length entries.now ≤ 2048) }
    requires total_value { (total ≡ sum lengths.now) × (total ≤ length bodies.now) × Room entries.now (drop total bodies.now) }
    ensures { answer_number result ≡ bodies_answer count lengths.now entries.now bodies.now }
{
    if !texts::texts_ok(lengths, total, bodies) {
        return Err(Refusal::FileTexts);
    }
    bodies::first_fault(count, entries, &bodies[total..])?;
    if !structure::structure_ok(entries, &bodies[total..]) {
        return Err(Refusal::FileStructure);
    }
    Ok(())
}

// The checks after the contents' own: kinds (4), text lengths (3), the bodies' end (1), the bodies.
fn read_parts(
    count: u64,
    lengths: &[u8],
    entries: &[u8],
    nodes: u64,
    bodies: &[u8],
) -> Result<(), Refusal>
    requires { (count ≤ 64) × (1 ≤ length lengths.now) × (length lengths.now ≤ 64) × (length entries.now ≤ 2048) × (length entries.now ≡ 2 * nodes) }
    ensures { answer_number result ≡ parts_answer count lengths.now entries.now bodies.now }
{
    if !contents::kinds_ok(entries) {
        return Err(Refusal::FileStructure);
    }
    if !contents::lengths_ok(lengths) {
        return Err(Refusal::FileTexts);
    }
    let total = bodies::text_bytes(lengths);
    let size = total + bodies::node_bytes(entries);
    if size != bodies.len() {
        return Err(Refusal::FileCut);
    }
    read_bodies(count, lengths, entries, total, bodies)
}

// The first refusal in the order of the checks, or none: the file holds a tree.
pub fn read(file: &[u8]) -> Result<(), Refusal>
    ensures { answer_number result ≡ answer_of (read_tree file.now) }
{
    if file.len() < FILE_LENGTHS {
        return Err(Refusal::FileCut);
    }
    if !contents::counts_ok(file) {
        return Err(Refusal::FileCounts);
    }
    let count = contents::text_count(file);
    let nodes = contents::node_count(file);
    let first = FILE_LENGTHS + count as usize;
    let size = first + NODE_SIZE * (nodes as usize);
    if file.len() < size {
        return Err(Refusal::FileCut);
    }
    read_parts(
        count,
        &file[FILE_LENGTHS..first],
        &file[first..size],
        nodes,
        &file[size..],
    )
}
