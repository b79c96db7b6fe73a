// The kernel for C, on numbers and bytes: a fresh image, and a step that changes an image in place and gives its answer as bytes.
// (specs/Steps.antt and specs/Answers.antt of `replies`.)
// (A cast by `as` stands where Rust has no `From`; each is proved to lose nothing.)
#![tactic(auto)]

ghost use Rattle.std.specs.Prelude.{◌≡◌, ◌≤◌, length, take};
ghost use Rattle.std.proofs.lemmas.List.Edits.{sets};
ghost use Rattle.scope.specs.Fresh.{fresh};
ghost use Rattle.fields.specs.Columns.{part};
ghost use Rattle.image.specs.Image.{image_size};
ghost use Rattle.replies.specs.Answers.{numbers_by};
ghost use Rattle.replies.specs.Steps.{StepsTo, steps_on, freshes, writes};

use answers::{Notices, Outcome};
use scope::{Refusal, Request, State};

const NO_ROOM: u32 = 31;

// The numbers of an answer, in their order.
fn numbers_of(o: Outcome, running: u32) -> [u32; 11]
    requires { o.woken ≤ 32 }
    ensures { result ≡ numbers_by o running }
{
    let v = o.values;
    [
        o.status,
        v[0],
        v[1],
        v[2],
        v[3],
        answers::bit(o.negative),
        running,
        o.woken as u32,
        o.why,
        answers::bit(o.delivers),
        o.length,
    ]
}

// The step through an image that has its own bytes. They are left as the step leaves them where they are an image, and as anything else
// where they are none.
fn step_own(
    image: &mut [u8; image::SIZE],
    message: &[u8],
    answer: &mut [u8; 236],
    request: &Request,
) -> u32
    requires { length image.old ≡ image_size }
    ensures { StepsTo image.old (steps_on image.old request.now.call request.now.mark request.now.a request.now.b request.now.c request.now.d request.now.e message.now) image.new answer.new result }
{
    let mut notices = Notices::new();
    let written = images::is_written(image);
    let t = imaging::step_image(image, &mut notices, message, request);
    if t.good & written {
        let o = t.outcome;
        let numbers = numbers_of(o, t.running);
        replies::put_answer(answer, &numbers, &notices.wakes, &notices.shown);
        return o.status;
    }
    replies::refuse(answer)
}

// The first bytes of a slice, as many as an image has.
fn front(image: &[u8]) -> [u8; image::SIZE]
    requires { image_size ≤ length image.now }
    ensures { result ≡ take image_size image.now }
{
    let mut own = [0u8; image::SIZE];
    columns::copy(&mut own, 0, image, 0, image::SIZE);
    own
}

// And back.
fn put_front(image: &mut [u8], own: &[u8; image::SIZE])
    requires { image_size ≤ length image.old }
    ensures { image.new ≡ sets image.old 0 (part image_size 0 own.now) }
{
    columns::copy(image, 0, own, 0, image::SIZE);
}

// The step of the state that stands in the image, in place; the answer is written beside it, and its status answered. 32 where the bytes
// are no image, and a refused step leaves every byte of it.
pub fn step(image: &mut [u8], message: &[u8], answer: &mut [u8; 236], request: &Request) -> u32
    ensures { (record { image = image.new; answer = answer.new; status = result })
        ≡ steps_on image.old request.now.call request.now.mark request.now.a request.now.b request.now.c request.now.d request.now.e message.now }
{
    if image.len() < image::SIZE {
        return replies::refuse(answer);
    }
    let mut own = front(image);
    let status = step_own(&mut own, message, answer, request);
    // (The status is C's number: above 1 it tells a refusal.)
    if 1 < status {
        return status;
    }
    put_front(image, &own);
    status
}

// The image of the fresh state, at the start of the slice; the status is answered, "31 before 19".
pub fn fresh(priority: u32, image: &mut [u8]) -> u32
    ensures { (record { bytes = image.new; status = result }) ≡ freshes priority image.old }
{
    if image.len() < image::SIZE {
        return NO_ROOM;
    }
    let mut own = [0; image::SIZE];
    imaging::fresh_image(&mut own, priority);
    put_front(image, &own);
    fresh::fresh_status(priority)
}

// A state's image at the start of the slice. "A bad state is not written: 26, before 31."
pub fn write(s: State, out: &mut [u8]) -> u32
    ensures { (record { bytes = out.new; status = result }) ≡ writes s out.old }
{
    let mut own = [0; image::SIZE];
    let good = imaging::image_of(s, &mut own);
    if good {
        if out.len() < image::SIZE {
            return NO_ROOM;
        }
        put_front(out, &own);
        return scope::OK;
    }
    Refusal::BadState.number()
}
