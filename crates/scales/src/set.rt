// A nonempty set of numbers of uses, 0 to 15, where 15 stands for 15 or more. The functions stand in
// `ops`, below, since their contracts cite definitions about this type.
ghost use Rattle.std.specs.Prelude.{◌<◌};

pub mod ops;

#[derive(Clone, Copy)]
pub struct Set {
    mask: u16,
    ghost some: { 0 < mask },
    ghost fits: { mask < 65536 },
}
