// Texts and items stored one after another in a slice that is lent, and what a writer answers and leaves
// in it: definitions, their laws (specs/), and `put`, which stores bytes.
//
// A part of a text is stored from a place on; the answer is the place after it. A struct of the slice
// and the place would be no plainer: each contract names a text of its own, the bytes and the place
// before and after, and would take them out of the struct again. Each part's contract is the record
// `Put` (the bytes, and the place after them), and `put-after` chains two with no side condition.
//
// What stores part by part asks for room, so it is private where it is used (`text`, `encode`). What is
// exported there answers for every slice: `WriteDone`.
#![tactic(auto)]

ghost use Rattle.writer.specs.Put.{PutDone};

// Stores bytes from a place on, and returns the place after them. Where they have no room there, nothing
// is stored, and the place is the one that was given.
pub fn put(bytes: &[u8], out: &mut [u8], at: usize) -> usize
    ensures { PutDone bytes.now at out.old out.new result }
{
    let end = at.saturating_add(bytes.len());
    if out.len() < end {
        return at;
    }
    out[at..end].copy_from_slice(bytes);
    end
}
