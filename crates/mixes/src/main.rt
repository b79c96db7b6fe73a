// Plays a mix by the inner step, for the benchmark, and prints a checksum of the answers.
#![tactic(auto)]

ghost use Rattle.std.specs.Prelude.{◌≡◌, length};

use std::process::ExitCode;

// As many bytes as a mix has at most: what comes after them is not played. (Apart, so that the proof of the function that asks for it does not carry each byte.)
fn mix_room() -> [u8; 65536]
    ensures { 65536 ≡ length result }
{
    [0; 65536]
}

// Where a read fails, what came before it is played.
// (Each program names its step; what they share is in `mixing`.)
fn main(rt: HostRuntime) -> ExitCode {
    let mut file = mix_room();
    let n = inputs::read_input(&mut rt.stdin(), &mut file).length;
    let mix = &file[..n];
    // (Every step is lent the mix itself as its message.)
    let sum = mixing::rounds(mix, |lent, request| {
        performing::perform(&mut lent.state, &mut lent.notices, mix, &request)
    });
    match println!(rt; "{sum}") {
        Err(e) if inputs::is_unread(&e) => ExitCode::from(inputs::UNREAD),
        _ => ExitCode::SUCCESS,
    }
}
