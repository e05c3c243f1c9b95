// A level's part, to read.
ghost use Rattle.std.specs.Prelude.{◌^◌, ◌<◌, length};

// The bytes of a part, fewer than 2^32, as a level's length field makes them.
#[derive(Clone, Copy)]
pub struct Part<'a> {
    pub bytes: &'a [u8],
    pub ghost short: { length bytes.now < 2 ^ 32 },
}
