/// The byte order mark in UTF-8, which may stand before a text (RFC 8259 section 8.1, The Unicode Standard section 23.8).
pub const BYTE_ORDER_MARK: [u8; 3] = [0xEF, 0xBB, 0xBF];
