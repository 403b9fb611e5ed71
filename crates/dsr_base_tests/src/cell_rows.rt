// Cells of ten bytes, and what they hold. Bits are counted from the first byte's least one.

/// The bytes before anything is put.
pub const BYTES: [u8; 10] = [0x01, 0x23, 0x45, 0x67, 0x89, 0xab, 0xcd, 0xef, 0xf0, 0x5a];

/// A cell's first bit and its width; its value; a value to put; and the bytes after that, as the
/// digits of one number.
pub type Row = (u64, u8, u64, u64, u128);

/// Whole bytes, the lowest first.
pub const LITTLE: [Row; 7] = [
    // byte 3
    (24, 8, 0x67, 0x9e, 0x0123_459e_89ab_cdef_f05a),
    // bytes 0 and 1, and the last two
    (0, 16, 0x2301, 0xbeef, 0xefbe_4567_89ab_cdef_f05a),
    (64, 16, 0x5af0, 0x0001, 0x0123_4567_89ab_cdef_0100),
    // bytes 3 to 6, and the last four
    (24, 32, 0xcdab_8967, 0x1234_5678, 0x0123_4578_5634_12ef_f05a),
    (48, 32, 0x5af0_efcd, 0x0fed_cba9, 0x0123_4567_89ab_a9cb_ed0f),
    // bytes 1 to 8, and the last eight
    (
        8,
        64,
        0xf0ef_cdab_8967_4523,
        0x0011_2233_4455_6677,
        0x0177_6655_4433_2211_005a,
    ),
    (
        16,
        64,
        0x5af0_efcd_ab89_6745,
        0xffff_ffff_ffff_fffe,
        0x0123_feff_ffff_ffff_ffff,
    ),
];

/// The same cells, the highest byte first.
pub const BIG: [Row; 7] = [
    (24, 8, 0x67, 0x9e, 0x0123_459e_89ab_cdef_f05a),
    (0, 16, 0x0123, 0xbeef, 0xbeef_4567_89ab_cdef_f05a),
    (64, 16, 0xf05a, 0x0001, 0x0123_4567_89ab_cdef_0001),
    (24, 32, 0x6789_abcd, 0x1234_5678, 0x0123_4512_3456_78ef_f05a),
    (48, 32, 0xcdef_f05a, 0x0fed_cba9, 0x0123_4567_89ab_0fed_cba9),
    (
        8,
        64,
        0x2345_6789_abcd_eff0,
        0x0011_2233_4455_6677,
        0x0100_1122_3344_5566_775a,
    ),
    (
        16,
        64,
        0x4567_89ab_cdef_f05a,
        0xffff_ffff_ffff_fffe,
        0x0123_ffff_ffff_ffff_fffe,
    ),
];

/// Ranges of bits, which have the same value in both orders.
pub const BITS: [Row; 11] = [
    // byte 0 is 0000 0001: its least bit
    (0, 1, 1, 0, 0x0023_4567_89ab_cdef_f05a),
    // byte 4 is 1000 1001: bit 3
    (35, 1, 1, 0, 0x0123_4567_81ab_cdef_f05a),
    // byte 9 is 0101 1010: its highest bit
    (79, 1, 0, 1, 0x0123_4567_89ab_cdef_f0da),
    // byte 3 is 0110 0111: bits 2 to 4 are 001, and as 110 make it 0111 1011
    (26, 3, 1, 6, 0x0123_457b_89ab_cdef_f05a),
    // byte 5 is 1010 1011 and byte 6 is 1100 1101: 10 below 1, and as 01 below 0 they make them
    // 0110 1011 and 1100 1100
    (46, 3, 6, 1, 0x0123_4567_896b_ccef_f05a),
    // byte 2 below the least bit of byte 3, which makes that 0110 0110
    (16, 9, 0x145, 0x0ba, 0x0123_ba66_89ab_cdef_f05a),
    // the highest bit of byte 4, which is 1, below byte 5: 1 + 2 * 171, and 0 + 2 * 84
    (39, 9, 343, 168, 0x0123_4567_0954_cdef_f05a),
    // bytes 1 to 4
    (8, 32, 0x8967_4523, 0x7654_3210, 0x0110_3254_76ab_cdef_f05a),
    // the high half of byte 4, bytes 5 to 7, and the low half of byte 8
    (36, 32, 0x0efc_dab8, 0xf103_2547, 0x0123_4567_7954_3210_ff5a),
    // 7 bits of byte 1, bytes 2 to 4, and a bit of byte 5, of which each is turned:
    // 1 | 1000 1001 | 0110 0111 | 0100 0101 | 0010 001
    // 0 | 0111 0110 | 1001 1000 | 1011 1010 | 1101 110
    (9, 32, 0xc4b3_a291, 0x3b4c_5d6e, 0x01dd_ba98_76aa_cdef_f05a),
    // a bit of byte 1, bytes 2 to 4, and 7 bits of byte 5, of which each is turned:
    // 010 1011 | 1000 1001 | 0110 0111 | 0100 0101 | 0
    // 101 0100 | 0111 0110 | 1001 1000 | 1011 1010 | 1
    (15, 32, 0x5712_ce8a, 0xa8ed_3175, 0x01a3_ba98_76d4_cdef_f05a),
];
