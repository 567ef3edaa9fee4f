// The reply to a line, by the base's entries or by the bench profile's (document 02, 2026-14).
ghost use Rattle.std.specs.Prelude.{◌≡◌, ◌+◌, ◌≤◌, length};
ghost use Rattle.listing_write.specs.Text.{longest_reply};
ghost use Rattle.writing.specs.Written.{Put};
ghost use Rattle.listing_stream.specs.Replies.{answer_by, admitted, reply_of};

use answers::answer_of;
use calls::Call;
use carlson::answer::Answer;
use listing_read::call_of;
use listing_write::{is_cel, put_answer};
use profile_answers::profile_of;
use writing::put_text;

fn answer_by(profile: bool, call: Call) -> Answer
    ensures { result ≡ answer_by profile call }
{
    if profile {
        return profile_of(call);
    }
    answer_of(call)
}

// CEL is no call of the profile.
#[tactic(auto, unfolding(crate::specs::Replies::admitted))]
fn admitted(profile: bool, line: Option<Call>) -> Option<Call>
    ensures { result ≡ admitted profile line }
{
    line.filter(|call| !(profile && is_cel(*call)))
}

// The reply to a line that was given without its end.
pub fn put_reply(profile: bool, line: &[u8], out: &mut [u8], at: usize) -> usize
    requires { at + longest_reply ≤ length out.old }
    ensures { Put out.old at (reply_of profile line.now) out.new result }
{
    match admitted(profile, call_of(line)) {
        Some(call) => put_answer(call, answer_by(profile, call), out, at),
        None => put_text(b"bad line\n", out, at),
    }
}
