// The report of the packed work list that comes from standard input, as text on standard output (document 02, 2026-05). A refusal
// is said on standard error, with the place, counted from 0, at which its job begins, and there is no report then. The list is
// read as it comes: what is added before a refusal is never written. The argument --progress asks for how far it has come.
#![tactic(auto)]

use console::{Source, say_refused};
use jobs_in::{Pulled, begin, place, pull};
use packed::Job;
use progress::{asked, jobs};
use report::add_job;
use report_say::say_report;
use report_words::judge_list;
use writing::OUT;

fn add(words: &mut [u64; 384], job: Job) {
    add_job(words, job);
}

// After the list's last job: 18 where there were too many, else the report.
fn end(rt: HostRuntime, words: &[u64; 384], calls: u64, at: u64, out: &mut [u8; OUT]) {
    let none = [0u64; 384];
    if let Err(refusal) = judge_list(&none, Ok(calls)) {
        say_refused(rt, at, refusal.number());
        return;
    }
    say_report(rt, words, out);
}

fn report_all(rt: HostRuntime, out: &mut [u8; OUT]) {
    let mut words = [0u64; 384];
    let mut window = [0u8; 4096];
    let mut stands = begin();
    let mut calls: u64 = 0;
    let mut meter = progress::begin(rt, asked(rt, 1), Source::Standard);
    // A proved loop has to end, and nothing says that the list does: so many turns no run uses up.
    for _ in 0..u64::MAX {
        match pull(rt, Source::Standard, &mut window, stands) {
            Pulled::Job(job, next) => {
                add(&mut words, job);
                stands = next;
                meter = jobs(rt, meter, calls, place(stands));
            }
            Pulled::End => {
                end(rt, &words, calls, place(stands), out);
                return;
            }
            Pulled::Refused(refusal) => {
                say_refused(rt, place(stands), refusal.number());
                return;
            }
            Pulled::Failed => {
                return;
            }
        }
        calls = std::num::wrapping_add_u64(calls, 1);
    }
}

fn main(rt: HostRuntime) {
    let mut out = [0u8; OUT];
    report_all(rt, &mut out);
}
