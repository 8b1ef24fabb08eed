// Whether a file goes with a chain, in plain words: what `inspect` says before all else. What a count stands for rests on blocks that rise; a file that is ahead of the
// chain, or far behind it, has none for a while.
#![tactic(auto)]

ghost use Rattle.std.specs.Prelude.{◌≡◌};
ghost use Rattle.print.specs.Page.{page_of, writes};
ghost use Rattle.premise.specs.Premise.{between, beside, premise};

use kinds::{Height, MAX_GAP};
use print::Cursor;

// A sentence around two heights.
#[tactic(auto, unfolding(print::specs::Page::writes, crate::specs::Premise::between))]
fn put_between(out: &mut Cursor, one: &[u8], h: u32, two: &[u8], n: u32, three: &[u8])
    ensures same_buffer { out.new.out.ghost_name ≡ out.old.out.ghost_name }
    ensures written { page_of out.new
        ≡ writes (between one.now h two.now n three.now) (page_of out.old) }
{
    out.put(one);
    out.put_decimal(h as u64);
    out.put(two);
    out.put_decimal(n as u64);
    out.put(three);
}

// What is said of a file whose last height is h, beside a chain of height n.
#[tactic(auto, unfolding(crate::specs::Premise::beside, crate::specs::Premise::ahead, crate::specs::Premise::behind, crate::specs::Premise::level))]
fn put_beside(out: &mut Cursor, h: u32, n: u32)
    ensures same_buffer { out.new.out.ghost_name ≡ out.old.out.ghost_name }
    ensures written { page_of out.new ≡ writes (beside h n) (page_of out.old) }
{
    if n < h {
        put_between(
            out,
            b"premise fails: the last height ",
            h,
            b" is above the chain's ",
            n,
            b"\nuntil the chain passes the last height, nothing decays, nothing expires and nothing is pruned\n",
        );
        return;
    }
    if MAX_GAP < n - h {
        put_between(
            out,
            b"premise fails: the last height ",
            h,
            b" is more than 4096 below the chain's ",
            n,
            b"\nthe next block is refused (GapTooWide) until empty blocks at most 4096 apart have led there\n",
        );
        return;
    }
    put_between(
        out,
        b"premise holds: the last height ",
        h,
        b" is at most the chain's ",
        n,
        b" and at most 4096 below it\n",
    );
}

// What is said of a file with that last height; nothing where the chain's height is not told.
#[tactic(auto, unfolding(crate::specs::Premise::premise, crate::specs::Premise::no_last, print::specs::Page::writes))]
pub fn put_premise(out: &mut Cursor, chain: Option<Height>, last: Option<Height>)
    ensures same_buffer { out.new.out.ghost_name ≡ out.old.out.ghost_name }
    ensures written { page_of out.new ≡ writes (premise chain last) (page_of out.old) }
{
    let Some(tip) = chain else {
        return;
    };
    match last {
        Some(height) => put_beside(out, height.0, tip.0),
        None => out.put(b"premise holds: there is no last height, and the first block sets it\n"),
    }
}
