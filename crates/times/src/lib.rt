// Time_outs: which are in range, and what a tick leaves of one. (scope's specs/Waiting.antt and Ticks.antt.)
#![tactic(auto, unfolding(scope::specs::Choice::pick, scope::specs::Waiting::is_time_out, scope::specs::Ticks::time_left))]

ghost use Rattle.std.specs.Prelude.{◌≡◌, true, false, not, ◌&&◌, eqb};
ghost use Rattle.scope.specs.Waiting.{is_time_out};
ghost use Rattle.scope.specs.Ticks.{time_left};

// The time_out that never runs out.
const FOREVER: u32 = u32::MAX;

// "time_out is 1 to 65,535 ticks, or 4,294,967,295 for FOREVER"
pub fn is_time_out(ticks: u32) -> bool
    ensures { result ≡ is_time_out ticks }
{
    ticks == FOREVER || (1 <= ticks && ticks <= 65535)
}

// Whether a call that may wait asks for no time_out there is. "With NOWAIT it is not looked at."
pub fn lacks_time_out(options: u32, ticks: u32) -> bool
    ensures { result ≡ (eqb options 0 && not (is_time_out ticks)) }
{
    options == 0 && !is_time_out(ticks)
}

// What a tick leaves of a time_out: one less, but of FOREVER. "A time_out runs on during suspension."
pub fn time_left(left: u32) -> u32
    ensures { result ≡ time_left left }
{
    if left == FOREVER {
        return left;
    }
    left.saturating_sub(1)
}
