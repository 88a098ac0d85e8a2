//! The numbers of the standard.
ghost use Rattle.std.specs.Prelude.{◌≡◌};
ghost use Rattle.dalvik.specs.declared.access.TheConstants as access;
ghost use Rattle.dalvik.specs.declared.opcode.TheConstants as opcode;

/// Each opcode has its number of the bytecode page; the clauses are the page's groups. Definitions name the opcodes,
/// so that without this law two of one format and kind could change places.
pub fn opcode_law()
    ensures moves { (opcode.NOP ≡ 0x00)
        × (opcode.MOVE ≡ 0x01) × (opcode.MOVE_FROM16 ≡ 0x02) × (opcode.MOVE_16 ≡ 0x03)
        × (opcode.MOVE_WIDE ≡ 0x04) × (opcode.MOVE_WIDE_FROM16 ≡ 0x05) × (opcode.MOVE_WIDE_16 ≡ 0x06)
        × (opcode.MOVE_OBJECT ≡ 0x07) × (opcode.MOVE_OBJECT_FROM16 ≡ 0x08) × (opcode.MOVE_OBJECT_16 ≡ 0x09) }
    ensures results { (opcode.MOVE_RESULT ≡ 0x0a) × (opcode.MOVE_RESULT_WIDE ≡ 0x0b) × (opcode.MOVE_RESULT_OBJECT ≡ 0x0c)
        × (opcode.MOVE_EXCEPTION ≡ 0x0d)
        × (opcode.RETURN_VOID ≡ 0x0e)
        × (opcode.RETURN ≡ 0x0f) × (opcode.RETURN_WIDE ≡ 0x10) × (opcode.RETURN_OBJECT ≡ 0x11) }
    ensures constants { (opcode.CONST_4 ≡ 0x12) × (opcode.CONST_16 ≡ 0x13) × (opcode.CONST ≡ 0x14) × (opcode.CONST_HIGH16 ≡ 0x15)
        × (opcode.CONST_WIDE_16 ≡ 0x16) × (opcode.CONST_WIDE_32 ≡ 0x17) × (opcode.CONST_WIDE ≡ 0x18)
        × (opcode.CONST_WIDE_HIGH16 ≡ 0x19)
        × (opcode.CONST_STRING ≡ 0x1a) × (opcode.CONST_STRING_JUMBO ≡ 0x1b) × (opcode.CONST_CLASS ≡ 0x1c) }
    ensures objects { (opcode.MONITOR_ENTER ≡ 0x1d) × (opcode.MONITOR_EXIT ≡ 0x1e)
        × (opcode.CHECK_CAST ≡ 0x1f) × (opcode.INSTANCE_OF ≡ 0x20) × (opcode.ARRAY_LENGTH ≡ 0x21)
        × (opcode.NEW_INSTANCE ≡ 0x22) × (opcode.NEW_ARRAY ≡ 0x23)
        × (opcode.FILLED_NEW_ARRAY ≡ 0x24) × (opcode.FILLED_NEW_ARRAY_RANGE ≡ 0x25) × (opcode.FILL_ARRAY_DATA ≡ 0x26) }
    ensures jumps { (opcode.THROW ≡ 0x27)
        × (opcode.GOTO ≡ 0x28) × (opcode.GOTO_16 ≡ 0x29) × (opcode.GOTO_32 ≡ 0x2a)
        × (opcode.PACKED_SWITCH ≡ 0x2b) × (opcode.SPARSE_SWITCH ≡ 0x2c) }
    ensures tests { (opcode.CMPL_FLOAT ≡ 0x2d) × (opcode.CMPG_FLOAT ≡ 0x2e) × (opcode.CMPL_DOUBLE ≡ 0x2f)
        × (opcode.CMPG_DOUBLE ≡ 0x30) × (opcode.CMP_LONG ≡ 0x31)
        × (opcode.IF_EQ ≡ 0x32) × (opcode.IF_NE ≡ 0x33) × (opcode.IF_LT ≡ 0x34) × (opcode.IF_GE ≡ 0x35)
        × (opcode.IF_GT ≡ 0x36) × (opcode.IF_LE ≡ 0x37)
        × (opcode.IF_EQZ ≡ 0x38) × (opcode.IF_NEZ ≡ 0x39) × (opcode.IF_LTZ ≡ 0x3a) × (opcode.IF_GEZ ≡ 0x3b)
        × (opcode.IF_GTZ ≡ 0x3c) × (opcode.IF_LEZ ≡ 0x3d) }
    ensures elements { (opcode.AGET ≡ 0x44) × (opcode.AGET_WIDE ≡ 0x45) × (opcode.AGET_OBJECT ≡ 0x46) × (opcode.AGET_BOOLEAN ≡ 0x47)
        × (opcode.AGET_BYTE ≡ 0x48) × (opcode.AGET_CHAR ≡ 0x49) × (opcode.AGET_SHORT ≡ 0x4a)
        × (opcode.APUT ≡ 0x4b) × (opcode.APUT_WIDE ≡ 0x4c) × (opcode.APUT_OBJECT ≡ 0x4d) × (opcode.APUT_BOOLEAN ≡ 0x4e)
        × (opcode.APUT_BYTE ≡ 0x4f) × (opcode.APUT_CHAR ≡ 0x50) × (opcode.APUT_SHORT ≡ 0x51) }
    ensures instance_fields { (opcode.IGET ≡ 0x52) × (opcode.IGET_WIDE ≡ 0x53) × (opcode.IGET_OBJECT ≡ 0x54) × (opcode.IGET_BOOLEAN ≡ 0x55)
        × (opcode.IGET_BYTE ≡ 0x56) × (opcode.IGET_CHAR ≡ 0x57) × (opcode.IGET_SHORT ≡ 0x58)
        × (opcode.IPUT ≡ 0x59) × (opcode.IPUT_WIDE ≡ 0x5a) × (opcode.IPUT_OBJECT ≡ 0x5b) × (opcode.IPUT_BOOLEAN ≡ 0x5c)
        × (opcode.IPUT_BYTE ≡ 0x5d) × (opcode.IPUT_CHAR ≡ 0x5e) × (opcode.IPUT_SHORT ≡ 0x5f) }
    ensures static_fields { (opcode.SGET ≡ 0x60) × (opcode.SGET_WIDE ≡ 0x61) × (opcode.SGET_OBJECT ≡ 0x62) × (opcode.SGET_BOOLEAN ≡ 0x63)
        × (opcode.SGET_BYTE ≡ 0x64) × (opcode.SGET_CHAR ≡ 0x65) × (opcode.SGET_SHORT ≡ 0x66)
        × (opcode.SPUT ≡ 0x67) × (opcode.SPUT_WIDE ≡ 0x68) × (opcode.SPUT_OBJECT ≡ 0x69) × (opcode.SPUT_BOOLEAN ≡ 0x6a)
        × (opcode.SPUT_BYTE ≡ 0x6b) × (opcode.SPUT_CHAR ≡ 0x6c) × (opcode.SPUT_SHORT ≡ 0x6d) }
    ensures calls { (opcode.INVOKE_VIRTUAL ≡ 0x6e) × (opcode.INVOKE_SUPER ≡ 0x6f) × (opcode.INVOKE_DIRECT ≡ 0x70)
        × (opcode.INVOKE_STATIC ≡ 0x71) × (opcode.INVOKE_INTERFACE ≡ 0x72)
        × (opcode.INVOKE_VIRTUAL_RANGE ≡ 0x74) × (opcode.INVOKE_SUPER_RANGE ≡ 0x75)
        × (opcode.INVOKE_DIRECT_RANGE ≡ 0x76) × (opcode.INVOKE_STATIC_RANGE ≡ 0x77)
        × (opcode.INVOKE_INTERFACE_RANGE ≡ 0x78) }
    ensures unary { (opcode.NEG_INT ≡ 0x7b) × (opcode.NOT_INT ≡ 0x7c) × (opcode.NEG_LONG ≡ 0x7d) × (opcode.NOT_LONG ≡ 0x7e)
        × (opcode.NEG_FLOAT ≡ 0x7f) × (opcode.NEG_DOUBLE ≡ 0x80)
        × (opcode.INT_TO_LONG ≡ 0x81) × (opcode.INT_TO_FLOAT ≡ 0x82) × (opcode.INT_TO_DOUBLE ≡ 0x83)
        × (opcode.LONG_TO_INT ≡ 0x84) × (opcode.LONG_TO_FLOAT ≡ 0x85) × (opcode.LONG_TO_DOUBLE ≡ 0x86)
        × (opcode.FLOAT_TO_INT ≡ 0x87) × (opcode.FLOAT_TO_LONG ≡ 0x88) × (opcode.FLOAT_TO_DOUBLE ≡ 0x89)
        × (opcode.DOUBLE_TO_INT ≡ 0x8a) × (opcode.DOUBLE_TO_LONG ≡ 0x8b) × (opcode.DOUBLE_TO_FLOAT ≡ 0x8c)
        × (opcode.INT_TO_BYTE ≡ 0x8d) × (opcode.INT_TO_CHAR ≡ 0x8e) × (opcode.INT_TO_SHORT ≡ 0x8f) }
    ensures binary_whole { (opcode.ADD_INT ≡ 0x90) × (opcode.SUB_INT ≡ 0x91) × (opcode.MUL_INT ≡ 0x92) × (opcode.DIV_INT ≡ 0x93)
        × (opcode.REM_INT ≡ 0x94) × (opcode.AND_INT ≡ 0x95) × (opcode.OR_INT ≡ 0x96) × (opcode.XOR_INT ≡ 0x97)
        × (opcode.SHL_INT ≡ 0x98) × (opcode.SHR_INT ≡ 0x99) × (opcode.USHR_INT ≡ 0x9a)
        × (opcode.ADD_LONG ≡ 0x9b) × (opcode.SUB_LONG ≡ 0x9c) × (opcode.MUL_LONG ≡ 0x9d) × (opcode.DIV_LONG ≡ 0x9e)
        × (opcode.REM_LONG ≡ 0x9f) × (opcode.AND_LONG ≡ 0xa0) × (opcode.OR_LONG ≡ 0xa1) × (opcode.XOR_LONG ≡ 0xa2)
        × (opcode.SHL_LONG ≡ 0xa3) × (opcode.SHR_LONG ≡ 0xa4) × (opcode.USHR_LONG ≡ 0xa5) }
    ensures binary_floating { (opcode.ADD_FLOAT ≡ 0xa6) × (opcode.SUB_FLOAT ≡ 0xa7) × (opcode.MUL_FLOAT ≡ 0xa8) × (opcode.DIV_FLOAT ≡ 0xa9)
        × (opcode.REM_FLOAT ≡ 0xaa)
        × (opcode.ADD_DOUBLE ≡ 0xab) × (opcode.SUB_DOUBLE ≡ 0xac) × (opcode.MUL_DOUBLE ≡ 0xad)
        × (opcode.DIV_DOUBLE ≡ 0xae) × (opcode.REM_DOUBLE ≡ 0xaf) }
    ensures onto_whole { (opcode.ADD_INT_2ADDR ≡ 0xb0) × (opcode.SUB_INT_2ADDR ≡ 0xb1) × (opcode.MUL_INT_2ADDR ≡ 0xb2)
        × (opcode.DIV_INT_2ADDR ≡ 0xb3) × (opcode.REM_INT_2ADDR ≡ 0xb4) × (opcode.AND_INT_2ADDR ≡ 0xb5)
        × (opcode.OR_INT_2ADDR ≡ 0xb6) × (opcode.XOR_INT_2ADDR ≡ 0xb7) × (opcode.SHL_INT_2ADDR ≡ 0xb8)
        × (opcode.SHR_INT_2ADDR ≡ 0xb9) × (opcode.USHR_INT_2ADDR ≡ 0xba)
        × (opcode.ADD_LONG_2ADDR ≡ 0xbb) × (opcode.SUB_LONG_2ADDR ≡ 0xbc) × (opcode.MUL_LONG_2ADDR ≡ 0xbd)
        × (opcode.DIV_LONG_2ADDR ≡ 0xbe) × (opcode.REM_LONG_2ADDR ≡ 0xbf) × (opcode.AND_LONG_2ADDR ≡ 0xc0)
        × (opcode.OR_LONG_2ADDR ≡ 0xc1) × (opcode.XOR_LONG_2ADDR ≡ 0xc2) × (opcode.SHL_LONG_2ADDR ≡ 0xc3)
        × (opcode.SHR_LONG_2ADDR ≡ 0xc4) × (opcode.USHR_LONG_2ADDR ≡ 0xc5) }
    ensures onto_floating { (opcode.ADD_FLOAT_2ADDR ≡ 0xc6) × (opcode.SUB_FLOAT_2ADDR ≡ 0xc7) × (opcode.MUL_FLOAT_2ADDR ≡ 0xc8)
        × (opcode.DIV_FLOAT_2ADDR ≡ 0xc9) × (opcode.REM_FLOAT_2ADDR ≡ 0xca)
        × (opcode.ADD_DOUBLE_2ADDR ≡ 0xcb) × (opcode.SUB_DOUBLE_2ADDR ≡ 0xcc) × (opcode.MUL_DOUBLE_2ADDR ≡ 0xcd)
        × (opcode.DIV_DOUBLE_2ADDR ≡ 0xce) × (opcode.REM_DOUBLE_2ADDR ≡ 0xcf) }
    ensures literals { (opcode.ADD_INT_LIT16 ≡ 0xd0) × (opcode.RSUB_INT ≡ 0xd1) × (opcode.MUL_INT_LIT16 ≡ 0xd2)
        × (opcode.DIV_INT_LIT16 ≡ 0xd3) × (opcode.REM_INT_LIT16 ≡ 0xd4) × (opcode.AND_INT_LIT16 ≡ 0xd5)
        × (opcode.OR_INT_LIT16 ≡ 0xd6) × (opcode.XOR_INT_LIT16 ≡ 0xd7)
        × (opcode.ADD_INT_LIT8 ≡ 0xd8) × (opcode.RSUB_INT_LIT8 ≡ 0xd9) × (opcode.MUL_INT_LIT8 ≡ 0xda)
        × (opcode.DIV_INT_LIT8 ≡ 0xdb) × (opcode.REM_INT_LIT8 ≡ 0xdc) × (opcode.AND_INT_LIT8 ≡ 0xdd)
        × (opcode.OR_INT_LIT8 ≡ 0xde) × (opcode.XOR_INT_LIT8 ≡ 0xdf) × (opcode.SHL_INT_LIT8 ≡ 0xe0)
        × (opcode.SHR_INT_LIT8 ≡ 0xe1) × (opcode.USHR_INT_LIT8 ≡ 0xe2) }
{}

/// Each access flag is the bit of the format page.
pub fn access_law()
    ensures { (access.STATIC ≡ 0x8) × (access.NATIVE ≡ 0x100) × (access.ABSTRACT ≡ 0x400) }
{}
