//! The numbers of the standard.
ghost use Rattle.std.specs.Prelude.{◌≡◌};
ghost use Rattle.dalvik_decode.specs.declared.ident.TheConstants as ident;

/// Each payload begins with its number of the format page. Definitions name these numbers, so that without this law
/// two of them could change places.
pub fn payload_law()
    ensures packed { ident.PACKED_SWITCH_PAYLOAD ≡ 0x0100 }
    ensures sparse { ident.SPARSE_SWITCH_PAYLOAD ≡ 0x0200 }
    ensures array { ident.FILL_ARRAY_DATA_PAYLOAD ≡ 0x0300 }
{}
