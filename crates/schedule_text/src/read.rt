ghost use Rattle.std.specs.Prelude.{◌≡◌, true, false, IfOk, IfErr, IfSome, IfNone};
ghost use Rattle.line_text.specs.Numbers.{value};
ghost use Rattle.schedule_text.specs.Text.{IsScheduleText, HasCause, is_worker};

use crate::ScheduleTextError;
use crate::tokens::Tokens;
use line_text::leading_digits;
use std::alloc::Global;

/// The schedule that a text stands for. Workers are counted from 0, and leading zeros of a number
/// count for nothing.
pub fn read_schedule(
    alloc: Global,
    workers: u16,
    text: &[u8],
) -> Result<Vec<u16>, ScheduleTextError>
    ensures schedule { IfOk result (λ schedule. IsScheduleText workers text.now schedule.items) }
    ensures refused { IfErr result (λ why. HasCause workers text.now why) }
{
    let mut tokens = Tokens::new(text);
    if tokens.next_token() != Some(b"schedule".as_slice()) {
        return Err(ScheduleTextError::BadToken { token: 0 });
    }
    let mut schedule = Vec::new(alloc);
    while let Some(token) = tokens.next_token() {
        let Some(worker) = worker_of(workers, token) else {
            let token = schedule.len() as u64 + 1;
            return Err(ScheduleTextError::BadToken { token });
        };
        schedule.push(worker)?;
    }
    Ok(schedule)
}

// The worker whose number a token is.
fn worker_of(workers: u16, token: &[u8]) -> Option<u16>
    ensures some { IfSome result (λ worker. is_worker workers token.now ≡ true) }
    ensures value { IfSome result (λ worker. worker ≡ value token.now) }
    ensures none { IfNone result (is_worker workers token.now ≡ false) }
{
    let (count, number) = leading_digits(token);
    if count == token.len() && number < u64::from(workers) {
        Some(number as u16)
    } else {
        None
    }
}
