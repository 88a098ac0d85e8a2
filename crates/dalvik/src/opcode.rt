//! The opcodes under the names of the bytecode page, with `_` for `-` and `/`.
//! A byte without a name here is unused.

// Moves and returns.
pub const NOP: u8 = 0x00;

pub const MOVE: u8 = 0x01;

pub const MOVE_FROM16: u8 = 0x02;

pub const MOVE_16: u8 = 0x03;

pub const MOVE_WIDE: u8 = 0x04;

pub const MOVE_WIDE_FROM16: u8 = 0x05;

pub const MOVE_WIDE_16: u8 = 0x06;

pub const MOVE_OBJECT: u8 = 0x07;

pub const MOVE_OBJECT_FROM16: u8 = 0x08;

pub const MOVE_OBJECT_16: u8 = 0x09;

pub const MOVE_RESULT: u8 = 0x0a;

pub const MOVE_RESULT_WIDE: u8 = 0x0b;

pub const MOVE_RESULT_OBJECT: u8 = 0x0c;

pub const MOVE_EXCEPTION: u8 = 0x0d;

pub const RETURN_VOID: u8 = 0x0e;

pub const RETURN: u8 = 0x0f;

pub const RETURN_WIDE: u8 = 0x10;

pub const RETURN_OBJECT: u8 = 0x11;

// Constants.
pub const CONST_4: u8 = 0x12;

pub const CONST_16: u8 = 0x13;

pub const CONST: u8 = 0x14;

pub const CONST_HIGH16: u8 = 0x15;

pub const CONST_WIDE_16: u8 = 0x16;

pub const CONST_WIDE_32: u8 = 0x17;

pub const CONST_WIDE: u8 = 0x18;

pub const CONST_WIDE_HIGH16: u8 = 0x19;

pub const CONST_STRING: u8 = 0x1a;

pub const CONST_STRING_JUMBO: u8 = 0x1b;

pub const CONST_CLASS: u8 = 0x1c;

// Monitors, types, arrays and objects.
pub const MONITOR_ENTER: u8 = 0x1d;

pub const MONITOR_EXIT: u8 = 0x1e;

pub const CHECK_CAST: u8 = 0x1f;

pub const INSTANCE_OF: u8 = 0x20;

pub const ARRAY_LENGTH: u8 = 0x21;

pub const NEW_INSTANCE: u8 = 0x22;

pub const NEW_ARRAY: u8 = 0x23;

pub const FILLED_NEW_ARRAY: u8 = 0x24;

pub const FILLED_NEW_ARRAY_RANGE: u8 = 0x25;

pub const FILL_ARRAY_DATA: u8 = 0x26;

// Control flow.
pub const THROW: u8 = 0x27;

pub const GOTO: u8 = 0x28;

pub const GOTO_16: u8 = 0x29;

pub const GOTO_32: u8 = 0x2a;

pub const PACKED_SWITCH: u8 = 0x2b;

pub const SPARSE_SWITCH: u8 = 0x2c;

// Comparisons.
pub const CMPL_FLOAT: u8 = 0x2d;

pub const CMPG_FLOAT: u8 = 0x2e;

pub const CMPL_DOUBLE: u8 = 0x2f;

pub const CMPG_DOUBLE: u8 = 0x30;

pub const CMP_LONG: u8 = 0x31;

// Conditional branches.
pub const IF_EQ: u8 = 0x32;

pub const IF_NE: u8 = 0x33;

pub const IF_LT: u8 = 0x34;

pub const IF_GE: u8 = 0x35;

pub const IF_GT: u8 = 0x36;

pub const IF_LE: u8 = 0x37;

pub const IF_EQZ: u8 = 0x38;

pub const IF_NEZ: u8 = 0x39;

pub const IF_LTZ: u8 = 0x3a;

pub const IF_GEZ: u8 = 0x3b;

pub const IF_GTZ: u8 = 0x3c;

pub const IF_LEZ: u8 = 0x3d;

// Elements of arrays.
pub const AGET: u8 = 0x44;

pub const AGET_WIDE: u8 = 0x45;

pub const AGET_OBJECT: u8 = 0x46;

pub const AGET_BOOLEAN: u8 = 0x47;

pub const AGET_BYTE: u8 = 0x48;

pub const AGET_CHAR: u8 = 0x49;

pub const AGET_SHORT: u8 = 0x4a;

pub const APUT: u8 = 0x4b;

pub const APUT_WIDE: u8 = 0x4c;

pub const APUT_OBJECT: u8 = 0x4d;

pub const APUT_BOOLEAN: u8 = 0x4e;

pub const APUT_BYTE: u8 = 0x4f;

pub const APUT_CHAR: u8 = 0x50;

pub const APUT_SHORT: u8 = 0x51;

// Fields of objects.
pub const IGET: u8 = 0x52;

pub const IGET_WIDE: u8 = 0x53;

pub const IGET_OBJECT: u8 = 0x54;

pub const IGET_BOOLEAN: u8 = 0x55;

pub const IGET_BYTE: u8 = 0x56;

pub const IGET_CHAR: u8 = 0x57;

pub const IGET_SHORT: u8 = 0x58;

pub const IPUT: u8 = 0x59;

pub const IPUT_WIDE: u8 = 0x5a;

pub const IPUT_OBJECT: u8 = 0x5b;

pub const IPUT_BOOLEAN: u8 = 0x5c;

pub const IPUT_BYTE: u8 = 0x5d;

pub const IPUT_CHAR: u8 = 0x5e;

pub const IPUT_SHORT: u8 = 0x5f;

// Fields of classes.
pub const SGET: u8 = 0x60;

pub const SGET_WIDE: u8 = 0x61;

pub const SGET_OBJECT: u8 = 0x62;

pub const SGET_BOOLEAN: u8 = 0x63;

pub const SGET_BYTE: u8 = 0x64;

pub const SGET_CHAR: u8 = 0x65;

pub const SGET_SHORT: u8 = 0x66;

pub const SPUT: u8 = 0x67;

pub const SPUT_WIDE: u8 = 0x68;

pub const SPUT_OBJECT: u8 = 0x69;

pub const SPUT_BOOLEAN: u8 = 0x6a;

pub const SPUT_BYTE: u8 = 0x6b;

pub const SPUT_CHAR: u8 = 0x6c;

pub const SPUT_SHORT: u8 = 0x6d;

// Calls.
pub const INVOKE_VIRTUAL: u8 = 0x6e;

pub const INVOKE_SUPER: u8 = 0x6f;

pub const INVOKE_DIRECT: u8 = 0x70;

pub const INVOKE_STATIC: u8 = 0x71;

pub const INVOKE_INTERFACE: u8 = 0x72;

pub const INVOKE_VIRTUAL_RANGE: u8 = 0x74;

pub const INVOKE_SUPER_RANGE: u8 = 0x75;

pub const INVOKE_DIRECT_RANGE: u8 = 0x76;

pub const INVOKE_STATIC_RANGE: u8 = 0x77;

pub const INVOKE_INTERFACE_RANGE: u8 = 0x78;

// Operations on one register.
pub const NEG_INT: u8 = 0x7b;

pub const NOT_INT: u8 = 0x7c;

pub const NEG_LONG: u8 = 0x7d;

pub const NOT_LONG: u8 = 0x7e;

pub const NEG_FLOAT: u8 = 0x7f;

pub const NEG_DOUBLE: u8 = 0x80;

pub const INT_TO_LONG: u8 = 0x81;

pub const INT_TO_FLOAT: u8 = 0x82;

pub const INT_TO_DOUBLE: u8 = 0x83;

pub const LONG_TO_INT: u8 = 0x84;

pub const LONG_TO_FLOAT: u8 = 0x85;

pub const LONG_TO_DOUBLE: u8 = 0x86;

pub const FLOAT_TO_INT: u8 = 0x87;

pub const FLOAT_TO_LONG: u8 = 0x88;

pub const FLOAT_TO_DOUBLE: u8 = 0x89;

pub const DOUBLE_TO_INT: u8 = 0x8a;

pub const DOUBLE_TO_LONG: u8 = 0x8b;

pub const DOUBLE_TO_FLOAT: u8 = 0x8c;

pub const INT_TO_BYTE: u8 = 0x8d;

pub const INT_TO_CHAR: u8 = 0x8e;

pub const INT_TO_SHORT: u8 = 0x8f;

// Operations on two registers.
pub const ADD_INT: u8 = 0x90;

pub const SUB_INT: u8 = 0x91;

pub const MUL_INT: u8 = 0x92;

pub const DIV_INT: u8 = 0x93;

pub const REM_INT: u8 = 0x94;

pub const AND_INT: u8 = 0x95;

pub const OR_INT: u8 = 0x96;

pub const XOR_INT: u8 = 0x97;

pub const SHL_INT: u8 = 0x98;

pub const SHR_INT: u8 = 0x99;

pub const USHR_INT: u8 = 0x9a;

pub const ADD_LONG: u8 = 0x9b;

pub const SUB_LONG: u8 = 0x9c;

pub const MUL_LONG: u8 = 0x9d;

pub const DIV_LONG: u8 = 0x9e;

pub const REM_LONG: u8 = 0x9f;

pub const AND_LONG: u8 = 0xa0;

pub const OR_LONG: u8 = 0xa1;

pub const XOR_LONG: u8 = 0xa2;

pub const SHL_LONG: u8 = 0xa3;

pub const SHR_LONG: u8 = 0xa4;

pub const USHR_LONG: u8 = 0xa5;

pub const ADD_FLOAT: u8 = 0xa6;

pub const SUB_FLOAT: u8 = 0xa7;

pub const MUL_FLOAT: u8 = 0xa8;

pub const DIV_FLOAT: u8 = 0xa9;

pub const REM_FLOAT: u8 = 0xaa;

pub const ADD_DOUBLE: u8 = 0xab;

pub const SUB_DOUBLE: u8 = 0xac;

pub const MUL_DOUBLE: u8 = 0xad;

pub const DIV_DOUBLE: u8 = 0xae;

pub const REM_DOUBLE: u8 = 0xaf;

// The same, into the first register that they read.
pub const ADD_INT_2ADDR: u8 = 0xb0;

pub const SUB_INT_2ADDR: u8 = 0xb1;

pub const MUL_INT_2ADDR: u8 = 0xb2;

pub const DIV_INT_2ADDR: u8 = 0xb3;

pub const REM_INT_2ADDR: u8 = 0xb4;

pub const AND_INT_2ADDR: u8 = 0xb5;

pub const OR_INT_2ADDR: u8 = 0xb6;

pub const XOR_INT_2ADDR: u8 = 0xb7;

pub const SHL_INT_2ADDR: u8 = 0xb8;

pub const SHR_INT_2ADDR: u8 = 0xb9;

pub const USHR_INT_2ADDR: u8 = 0xba;

pub const ADD_LONG_2ADDR: u8 = 0xbb;

pub const SUB_LONG_2ADDR: u8 = 0xbc;

pub const MUL_LONG_2ADDR: u8 = 0xbd;

pub const DIV_LONG_2ADDR: u8 = 0xbe;

pub const REM_LONG_2ADDR: u8 = 0xbf;

pub const AND_LONG_2ADDR: u8 = 0xc0;

pub const OR_LONG_2ADDR: u8 = 0xc1;

pub const XOR_LONG_2ADDR: u8 = 0xc2;

pub const SHL_LONG_2ADDR: u8 = 0xc3;

pub const SHR_LONG_2ADDR: u8 = 0xc4;

pub const USHR_LONG_2ADDR: u8 = 0xc5;

pub const ADD_FLOAT_2ADDR: u8 = 0xc6;

pub const SUB_FLOAT_2ADDR: u8 = 0xc7;

pub const MUL_FLOAT_2ADDR: u8 = 0xc8;

pub const DIV_FLOAT_2ADDR: u8 = 0xc9;

pub const REM_FLOAT_2ADDR: u8 = 0xca;

pub const ADD_DOUBLE_2ADDR: u8 = 0xcb;

pub const SUB_DOUBLE_2ADDR: u8 = 0xcc;

pub const MUL_DOUBLE_2ADDR: u8 = 0xcd;

pub const DIV_DOUBLE_2ADDR: u8 = 0xce;

pub const REM_DOUBLE_2ADDR: u8 = 0xcf;

// Operations on a register and a literal.
pub const ADD_INT_LIT16: u8 = 0xd0;

pub const RSUB_INT: u8 = 0xd1;

pub const MUL_INT_LIT16: u8 = 0xd2;

pub const DIV_INT_LIT16: u8 = 0xd3;

pub const REM_INT_LIT16: u8 = 0xd4;

pub const AND_INT_LIT16: u8 = 0xd5;

pub const OR_INT_LIT16: u8 = 0xd6;

pub const XOR_INT_LIT16: u8 = 0xd7;

pub const ADD_INT_LIT8: u8 = 0xd8;

pub const RSUB_INT_LIT8: u8 = 0xd9;

pub const MUL_INT_LIT8: u8 = 0xda;

pub const DIV_INT_LIT8: u8 = 0xdb;

pub const REM_INT_LIT8: u8 = 0xdc;

pub const AND_INT_LIT8: u8 = 0xdd;

pub const OR_INT_LIT8: u8 = 0xde;

pub const XOR_INT_LIT8: u8 = 0xdf;

pub const SHL_INT_LIT8: u8 = 0xe0;

pub const SHR_INT_LIT8: u8 = 0xe1;

pub const USHR_INT_LIT8: u8 = 0xe2;
