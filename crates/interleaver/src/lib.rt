// The interleaver (M.2092-1, Annex 2, 1.2.4.3; document 01, "From datagram to block"). Positions are had one from another by adding and
// subtracting (document 02, K5): pair by pair along a row, and row by row.
#![tactic(auto)]

mod adding;

ghost use Rattle.std.specs.Prelude.{◌≡◌, ◌+◌, ◌*◌, ◌/◌, ◌<◌, length};
ghost use Rattle.turbo.specs.Interleaver.{interleaved_from, interleaved};
ghost use Rattle.interleaver.specs.Working.Starts.{distance, step_of, start_of};

use adding::{reduced, stepped, times};
use links::{BlockBits, Link};

// What row i of pairs starts with: the place of its first input, its t, and how far each of its pairs lies from the one before.
#[derive(Clone, Copy)]
struct Start {
    i: usize,
    place: usize,
    t: usize,
    step: usize,
}

// How far two positions lie apart whose c are n apart: k1 times n, which is reduced modulo k2.
#[tactic(auto, using(crate::proofs::Stepping::good_rows))]
fn distance(link: Link, n: usize) -> usize
    ensures { result ≡ distance link.row n }
{
    let c = reduced(n, link.row.k2);
    times(link.row.k1, c)
}

// The step along the row with this t, whose prime is that of q = t mod 8 + 1.
fn step_of(link: Link, t: usize) -> usize
    ensures { result ≡ step_of link.row t }
{
    distance(link, link.row.primes[t % 8] as usize)
}

// What the first row starts with: its t is 1, or 0 where there is no other.
#[tactic(auto, using(crate::proofs::Stepping::good_rows), unfolding(crate::specs::Working::Starts::start_of))]
fn first(link: Link) -> Start
    ensures { result ≡ start_of link.row 0 }
{
    let t = reduced(1, link.row.k1 / 2);
    Start {
        i: 0,
        place: 0,
        t,
        step: step_of(link, t),
    }
}

// What the next row starts with: its t is 19 further on.
#[tactic(auto, using(crate::proofs::Stepping::good_rows), unfolding(crate::specs::Working::Starts::start_of))]
fn next(link: Link, start: Start) -> Start
    requires { (start.i < link.row.k1 / 2) × (start ≡ start_of link.row start.i) }
    ensures { result ≡ start_of link.row (start.i + 1) }
{
    let half = link.row.k1 / 2;
    let by = reduced(19, half);
    let t = stepped(start.t, by, half);
    let step = step_of(link, t);
    Start {
        i: start.i + 1,
        place: start.place + 2 * link.row.k2,
        t,
        step,
    }
}

// Lays the inputs of a row, two to a pair, at s and s + 1. Places count from 0, so x is π - 2 at the first of a pair. Pairs are not cut by
// chunks_exact_mut, since the library says nothing of a slice after it.
#[tactic(auto, using(crate::proofs::Stepping::good_rows), unfolding(crate::specs::Working::Starts::start_of))]
fn lay_row(block: BlockBits, start: Start, row: &mut [bool])
    requires { (start.i < block.link.row.k1 / 2) × (start ≡ start_of block.link.row start.i) × (length row.old ≡ 2 * block.link.row.k2) }
    ensures { row.new ≡ interleaved_from block.entry.link.row block.entry.bits.now (start.place + 1) (2 * block.entry.link.row.k2) }
{
    let u = block.bits;
    let apart = distance(block.link, 21);
    let mut x = 2 * start.t;
    for s in (0..row.len()).step_by(2) {
        row[s] = u[x + 1];
        row[s + 1] = u[stepped(x, apart, u.len())];
        x = stepped(x, start.step, u.len());
    }
}

// The second encoder's inputs, in order: row by row, whose number is in what it starts with, since each is stepped from the one before.
#[tactic(auto, using(crate::proofs::Stepping::good_rows), unfolding(crate::specs::Working::Starts::start_of))]
pub fn interleave(block: BlockBits, v: &mut [bool])
    requires { length v.old ≡ block.link.row.k }
    ensures { v.new ≡ interleaved block.entry.link.row block.entry.bits.now }
{
    let link = block.link;
    let width = 2 * link.row.k2;
    let mut start = first(link);
    while start.i < link.row.k1 / 2 {
        lay_row(block, start, &mut v[start.place..start.place + width]);
        start = next(link, start);
    }
}
