// The numbers of the format: opcodes, sizes, the marker and the limit on pixels.

// The least first byte of each kind of chunk; those below DIFF's are INDEX.
pub const QOI_OP_DIFF: u8 = 0x40;

pub const QOI_OP_LUMA: u8 = 0x80;

pub const QOI_OP_RUN: u8 = 0xc0;

pub const QOI_OP_RGB: u8 = 0xfe;

pub const QOI_OP_RGBA: u8 = 0xff;

pub const QOI_HEADER_SIZE: usize = 14;

pub const QOI_PADDING: [u8; 8] = [0, 0, 0, 0, 0, 0, 0, 1];

pub const QOI_PADDING_SIZE: usize = QOI_PADDING.len();

// "qoif", read as a big-endian number.
pub const QOI_MAGIC: u32 = 0x716f_6966;

pub const QOI_PIXELS_MAX: usize = 400_000_000;
