// A list of calls in bytes, run on a holder freshly made from a key, with every answer written to a lent log.

#![tactic(auto)]

ghost use Rattle.std.specs.Prelude.{◌≡◌, ◌++◌, ◌+◌, ◌≤◌, length, take, drop};
ghost use Rattle.std.specs.Result.{result_unwrap_or};
ghost use Rattle.refusal.specs.Reasons.{outcome_number};
ghost use Rattle.holder_from_key.specs.FromKey.{made_holder};
ghost use Rattle.routes.specs.Routes.{returned, answer};
ghost use Rattle.route_run.specs.Log.{call_of, logged_of, row_or, way_number, row_of, run_number, run_holder, run_log};

use blocks::put_bytes;
use holder::{Holder, Way};
use refusal::Reason;

// Kept: a list of calls is lent bytes, and the definition `call_of` says which byte is which call.
pub const FORWARD: u8 = 253;

pub const BACK: u8 = 254;

pub const SUBKEY: u8 = 255;

// A call's answer, with the holder that it returned or left.
#[derive(Clone, Copy)]
pub struct Logged {
    pub number: u32,
    pub steps: usize,
    pub way: Way,
    pub subkey: [u8; 12],
    pub holder: Holder,
}

// One call of the list, with what it leaves to be logged.
fn try_call(code: u8, h: Holder) -> Result<Logged, Reason>
    ensures { row_or h result ≡ logged_of (answer (call_of code) h) (returned (call_of code) h) }
{
    let kept = Logged {
        number: 0,
        steps: 0,
        way: Way::Forward,
        subkey: [0u8; 12],
        holder: h,
    };
    if code == FORWARD {
        return Ok(Logged {
            holder: holder_steps::forward(h)?,
            ..kept
        });
    }
    if code == BACK {
        return Ok(Logged {
            holder: holder_steps::back(h)?,
            ..kept
        });
    }
    if code == SUBKEY {
        return Ok(Logged {
            subkey: holder_steps::subkey(h)?,
            ..kept
        });
    }
    let walked = holder_walk::walk(h, code as usize)?;
    Ok(Logged {
        holder: walked.holder,
        steps: walked.steps,
        way: walked.way,
        ..kept
    })
}

// One call of the list: where it is refused, the reason's number is logged beside the holder as it was.
fn call(code: u8, h: Holder) -> Logged
    ensures { result ≡ logged_of (answer (call_of code) h) (returned (call_of code) h) }
{
    match try_call(code, h) {
        Ok(row) => row,
        Err(reason) => Logged {
            number: u32::from(reason),
            steps: 0,
            way: Way::Forward,
            subkey: [0u8; 12],
            holder: h,
        },
    }
}

fn way_byte(way: Way) -> u8
    ensures { result ≡ way_number way }
{
    match way {
        Way::Forward => 0,
        Way::Back => 1,
    }
}

// A row of the log.
fn put_row(log: &mut [u8], at: usize, r: Logged)
    requires { (at + 41 ≤ length log.old) × ((length r.subkey ≡ 12) × (length r.holder.bytes ≡ 24)) }
    ensures { log.new ≡ take at log.old ++ (row_of r ++ drop (at + 41) log.old) }
{
    let head = [
        (r.number % 256) as u8,
        (r.steps % 256) as u8,
        way_byte(r.way),
        (r.holder.length % 256) as u8,
        (r.holder.number % 256) as u8,
    ];
    put_bytes(log, at, &head);
    put_bytes(log, at + 5, &r.subkey);
    put_bytes(log, at + 17, &r.holder.bytes);
}

// Runs every call of the list, in its order, by the holder's own calls.
pub fn run(key: &[u8], calls: &[u8], log: &mut [u8]) -> Result<Holder, Reason>
    ensures outcome_value { outcome_number result ≡ run_number key.now calls.now log.old }
    ensures holder_value { result_unwrap_or result (made_holder key.now) ≡ run_holder key.now calls.now log.old }
    ensures log_after { log.new ≡ run_log key.now calls.now log.old }
{
    let mut h = holder_from_key::make(key)?;
    if log.len() / 41 < calls.len() {
        return Err(Reason::OutputTooShort);
    }
    for i in 0..calls.len() {
        let r = call(calls[i], h);
        put_row(log, 41 * i, r);
        h = r.holder;
    }
    Ok(h)
}
