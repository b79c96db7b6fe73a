// The answer of a step as bytes that C reads as a struct: the bytes of its numbers, its wakes and the message shown, and the answer that bytes which are no image get. (specs/Answers.antt.)
#![tactic(auto)]

ghost use Rattle.std.specs.Prelude.{◌≡◌};
ghost use Rattle.replies.specs.Answers.{answer_bytes};
ghost use Rattle.replies.specs.Steps.{bad_answer};

// C reads it as the status of a call (`exports_c`), so it is a number.
const BAD_IMAGE: u32 = 32;

// An answer's bytes.
pub fn put_answer(answer: &mut [u8; 236], numbers: &[u32; 11], wakes: &[u32; 32], shown: &[u8; 64])
    ensures { answer.new ≡ answer_bytes numbers.now wakes.now shown.now }
{
    columns::put_column(answer, 0, 4, numbers);
    columns::put_column(answer, 44, 4, wakes);
    columns::put_rows(answer, 172, 64, 1, 64, shown);
}

// 32: a status, and nobody runs.
pub fn refuse(answer: &mut [u8; 236]) -> u32
    ensures { (answer.new ≡ bad_answer) × (result ≡ 32) }
{
    let wakes = [0u32; 32];
    let shown = [0u8; 64];
    let numbers = [BAD_IMAGE, 0, 0, 0, 0, 0, 0, 0, 0, 0, 0];
    put_answer(answer, &numbers, &wakes, &shown);
    BAD_IMAGE
}
