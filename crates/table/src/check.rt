// A list and its claims, each lent whole.
ghost use Rattle.std.specs.Prelude.{◌≡◌, ◌+◌, ◌≤◌, length, get_or, drop};
ghost use Rattle.table.specs.Table.{check_of};
ghost use Rattle.table.specs.Words.{row_more, words_after};

use crate::judge::judged;
use claim::{Checked, Claim, ended, missing};
use packed::{Job, read_job};
use writing::has_room;

// The claim at a place of the words.
fn claim_at(claims: &[u64], at: usize) -> Claim
    requires { at + 2 ≤ length claims.now }
    ensures { result ≡ record { kind = get_or claims.now at 0; word = get_or claims.now (at + 1) 0 } }
{
    Claim {
        kind: claims[at],
        word: claims[at + 1],
    }
}

// After a job more, with the words from a place on.
fn row_more(so: Checked, row: u64, job: Job, claims: &[u64], at: usize, tolerance: u64) -> Checked
    ensures { result ≡ row_more tolerance so row job (drop at claims.now) }
{
    if has_room(claims.len(), at, 2) {
        return judged(so, row, job, claim_at(claims, at), tolerance);
    }
    missing(so)
}

// The place after a claim, where there is one.
fn words_after(length: usize, at: usize) -> usize
    ensures { result ≡ words_after length at }
{
    if has_room(length, at, 2) {
        return at + 2;
    }
    at
}

// Two words for each job: its claim's kind and word. Each read says itself where the next job begins, so the place is no index.
pub fn check_table(list: &[u8], claims: &[u64], tolerance: u64) -> Checked
    ensures { result ≡ check_of tolerance list.now claims.now }
{
    let mut so = Checked::Accepted;
    let mut row: u64 = 0;
    let mut place: usize = 0;
    let mut at: usize = 0;
    while place < list.len() {
        match read_job(list, place) {
            Ok(Some(got)) => {
                let job = got.job;
                so = row_more(so, row, job, claims, at, tolerance);
                at = words_after(claims.len(), at);
                place = got.next;
            }
            Ok(None) => {
                return so;
            }
            Err(refusal) => {
                return Checked::Refused(refusal);
            }
        }
        row += 1;
    }
    ended(so, at < claims.len())
}
