// A table of numbers: the number at each of 32 places, and the place of each number.
ghost use Rattle.layers.specs.Renumbering.{Keeps};

mod calls;
mod filling;

// The first `count` places hold each number below `count` once; every later place holds its own number.
// Two arrays, each the other's inverse: a move reads one entry of each, and searches neither.
#[derive(Clone, Copy)]
pub struct RenumberTable {
    number: [u8; 32],
    place: [u8; 32],
    count: u32,
    ghost keeps: { Keeps (record { count = count; number = number; place = place }) },
}
