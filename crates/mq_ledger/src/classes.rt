//! Size classes of slots, by the capacity of their buffers, so that a message finds the room that
//! was paid for in advance.
ghost use Rattle.std.specs.Prelude.{◌<◌};

/// The number of classes.
pub const CLASSES: u32 = 18;

/// The class of slots whose buffers grow as they are used.
pub const GROWING: u32 = 0;

/// The initial buffer capacity of the slots of each class, in bytes.
static ROOMS: [usize; 18] = [
    0, 1, 2, 4, 8, 16, 32, 64, 128, 256, 512, 1024, 2048, 4096, 8192, 16_384, 32_768, 65_536,
];

/// The most bytes of a name.
pub const NAME: usize = 256;

/// The first class whose buffers hold this many bytes.
pub fn class_of(bytes: usize) -> u32 {
    for class in 1..CLASSES {
        if bytes <= ROOMS[class as usize] {
            return class;
        }
    }
    GROWING
}

/// The class of the slots for names.
pub fn class_of_names() -> u32 {
    class_of(NAME)
}

/// The initial buffer capacity of the slots of a class, in bytes.
pub fn room_of(class: u32) -> usize {
    if class < CLASSES {
        ROOMS[class as usize]
    } else {
        0
    }
}
