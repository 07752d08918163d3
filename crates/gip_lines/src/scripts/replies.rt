//! The lines of a script as calls of a heap, and its replies as text.
ghost use Rattle.std.specs.Prelude.{◌≡◌, ◌++◌, ◌∷◌, [], ℕ, Bool, List, decimal, if◌then◌else◌, IsTrue, IfOk, IfErr, OnOk};
ghost use Rattle.std.specs.List.{list_all, flat_map};
ghost use Rattle.gip_lines.specs.Scripts.Lines.{has_small_key};
ghost use Rattle.gip_lines.specs.Scripts.Steps.{call_of, gives_ranks, steps_from, tables_from, is_line_reply, reply_line};
ghost use Rattle.gip_lines.specs.Scripts.Replies.{start_ranks, ranks_after, ranks_with, script_text};
ghost use Rattle.giputils_text.specs.Lines.{line_feed};

use crate::fault::GipFault;
use crate::scripts::lines::{KEYS, Line};
use giputils_heap::{HeapCall, HeapReply, HeapStep, RankTable, heap_run};
use std::alloc::{AllocError, Allocator};
use std::io::Write;

// Runs some lines on a heap that is empty at first. Gives the replies, as the text to write.
pub(crate) fn replies_to<A: Allocator + Copy>(
    alloc: A,
    lines: &[Line],
) -> Result<Vec<u8, A>, GipFault>
    requires keys { IsTrue (list_all has_small_key lines.now) }
    ensures text { IfOk result (λ text. (refusals : List Bool) × (text.items ≡ script_text lines.now refusals)) }
    ensures err { IfErr result (λ fault. fault ≡ GipFault.Memory) }
{
    let tables = tables_of(alloc, lines)?;
    let mut steps = steps_of(alloc, lines, &tables)?;
    let replies = heap_run(alloc, &mut steps)?;
    text_of_replies(alloc, &replies)
}

// Whether a line gives ranks, and so leaves a table of its own. This alone decides which lines do.
fn gives_ranks(line: Line) -> bool
    ensures { result ≡ gives_ranks line }
{
    matches!(line, Line::Rank(_, _) | Line::Ranks(_))
}

// The table of ranks at the start, and one for each line that gives ranks, as that line leaves them.
fn tables_of<A: Allocator>(alloc: A, lines: &[Line]) -> Result<Vec<RankTable<KEYS>, A>, AllocError>
    requires { IsTrue (list_all has_small_key lines.now) }
    ensures { IfOk result (λ tables. tables.items ≡ record { 0 = start_ranks } ∷ tables_from start_ranks lines.now) }
{
    let mut tables = Vec::new(alloc);
    let mut ranks = [0; KEYS];
    tables.push(RankTable(ranks))?;
    for line in lines {
        let left = ranks_after(*line, ranks);
        ranks = left;
        if gives_ranks(*line) {
            tables.push(RankTable(ranks))?;
        }
    }
    Ok(tables)
}

// The ranks that a line leaves.
fn ranks_after(line: Line, mut ranks: [u32; KEYS]) -> [u32; KEYS]
    requires { IsTrue (has_small_key line) }
    ensures { result ≡ ranks_after line ranks }
{
    match line {
        Line::Rank(key, rank) => ranks[key as usize] = rank,
        Line::Ranks(given) => ranks = ranks_with(&given, ranks),
        _ => {}
    }
    ranks
}

// The ranks, where each key that is given one has that.
fn ranks_with(given: &[Option<u32>; KEYS], mut ranks: [u32; KEYS]) -> [u32; KEYS]
    ensures { result ≡ ranks_with given.now ranks }
{
    for key in 0..KEYS {
        if let Some(rank) = given[key] {
            ranks[key] = rank;
        }
    }
    ranks
}

// A step for each line, which compares by the table of ranks that the line leaves.
fn steps_of<'a, A: Allocator>(
    alloc: A,
    lines: &[Line],
    tables: &'a [RankTable<KEYS>],
) -> Result<Vec<HeapStep<'a, u8, RankTable<KEYS>>, A>, AllocError>
    requires { tables.now ≡ record { 0 = start_ranks } ∷ tables_from start_ranks lines.now }
    ensures { IfOk result (λ steps. steps.items ≡ steps_from start_ranks lines.now) }
{
    let mut steps = Vec::with_capacity(alloc, lines.len())?;
    let mut table = 0;
    for line in lines {
        table += usize::from(gives_ranks(*line));
        steps.push(HeapStep::new(heap_call(*line), &tables[table]))?;
    }
    Ok(steps)
}

// The call that a line makes.
fn heap_call(line: Line) -> HeapCall<u8>
    ensures { result ≡ call_of line }
{
    match line {
        Line::Push(key) => HeapCall::Push(key),
        Line::Pop => HeapCall::Pop,
        Line::Len => HeapCall::Len,
        Line::Clear => HeapCall::Clear,
        Line::Rank(key, _) => HeapCall::Update(key),
        Line::Ranks(_) => HeapCall::Rebuild,
        Line::Up(key) => HeapCall::Up(key),
        Line::Down(key) => HeapCall::Down(key),
    }
}

// The replies as text, a line each.
fn text_of_replies<A: Allocator>(
    alloc: A,
    replies: &[HeapReply<u8>],
) -> Result<Vec<u8, A>, GipFault>
    requires { IsTrue (list_all is_line_reply replies.now) }
    ensures ok { IfOk result (λ text. text.items ≡ flat_map reply_line replies.now) }
    ensures err { IfErr result (λ fault. fault ≡ GipFault.Memory) }
{
    let mut text = Vec::new(alloc);
    for reply in replies {
        write_reply(&mut text, *reply)?;
    }
    Ok(text)
}

// Writes the text of a reply, in a line.
fn write_reply<A: Allocator>(text: &mut Vec<u8, A>, reply: HeapReply<u8>) -> Result<(), GipFault>
    requires { IsTrue (is_line_reply reply) }
    ensures ok { OnOk result (text.new.items ≡ text.old.items ++ reply_line reply) }
    ensures err { IfErr result (λ fault. fault ≡ GipFault.Memory) }
{
    match reply {
        HeapReply::Done => text.extend_from_slice(b"ok\n")?,
        HeapReply::Refused => text.extend_from_slice(b"memory\n")?,
        HeapReply::Popped(None) => text.extend_from_slice(b"none\n")?,
        HeapReply::Popped(Some(key)) => write_number(text, usize::from(key))?,
        HeapReply::Length(n) => write_number(text, n)?,
        HeapReply::Skipped | HeapReply::Empty(_) => unreachable!(),
    }
    Ok(())
}

// Writes a number, in a line.
fn write_number<A: Allocator>(text: &mut Vec<u8, A>, n: usize) -> Result<(), GipFault>
    ensures ok { OnOk result (text.new.items ≡ text.old.items ++ (decimal n ++ line_feed ∷ [])) }
    ensures err { IfErr result (λ fault. fault ≡ GipFault.Memory) }
{
    writeln!(text, "{n}").map_err(|_| GipFault::Memory)
}
