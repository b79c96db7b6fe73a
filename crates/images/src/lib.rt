// The image of a state by value, and whether bytes are one. (image's specs/Image.antt and specs/Tests.antt; docs/IMAGE.md.)
#![tactic(auto)]

ghost use Rattle.std.specs.Prelude.{◌≡◌};
ghost use Rattle.image.specs.Image.{image_of};
ghost use Rattle.image.specs.Reading.{state_from, same_bytes};

use scope::State;

// The image of a state.
pub fn image_of(s: State) -> [u8; image::SIZE]
    ensures { result ≡ image_of s }
{
    let mut image = [0; image::SIZE];
    image::put_header(&mut image);
    image::put_tasks(&mut image, &s.line, &s.tasks);
    image::put_semaphores(&mut image, &s.semaphores);
    image::put_pools(&mut image, &s.pools);
    image::put_queues(&mut image, &s.queues);
    image::put_order(&mut image, &orders::ready_places(&s.line.seat));
    image
}

// Whether the bytes are those that the state in them writes. No second image is made: header, flags and ready order are looked at, and every
// other byte is part of a number that comes back as it was. (image's specs/Tests.antt.)
pub fn is_written(image: &[u8; image::SIZE]) -> bool
    ensures { result ≡ same_bytes image.now (image_of (state_from image.now)) }
{
    let mut seat = [0u16; 32];
    columns::take_column(image, 54, 17, &mut seat);
    let places = orders::ready_places(&seat);
    image::header_right(image) & (image::flags_right(image) & image::order_is(image, &places))
}
