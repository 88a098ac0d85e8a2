//! Which indices are past their tables, and how many registers arguments take.
ghost use Rattle.std.specs.Prelude.{◌≡◌, ◌<◌, ◌≤◌, ◌*◌, ◌^◌, None, IfOk};
ghost use Rattle.dex_tables.specs.Content.{AreTablesOf};
ghost use Rattle.dex_tables.specs.Rows.{list_size, list_entry, method_count, method_proto, proto_count, proto_params, type_count, type_name};
ghost use Rattle.dalvik.specs.Descriptors.{words_of};
ghost use Rattle.dalvik.specs.Calls.{args_len, is_static_call};
ghost use Rattle.dalvik.specs.Naming.{naming_of};
ghost use Rattle.method_graph.specs.Operands.{AreSums, argument_words, has_its_args, param_type, param_words, params_words, past_table, unless_below};

use dalvik::{Args, Ins, Naming, opcode};
use dex_tables::{Tables, string_bytes};
use std::alloc::AllocError;
use std::collections::BTreeMap;

/// For some prototypes, how many registers their parameters take.
pub type ParamSums = BTreeMap<u32, u64>;

fn unless_row(rows: usize, row: u32) -> Option<u32>
    ensures { result ≡ unless_below rows row }
{
    if (row as usize) < rows {
        None
    } else {
        Some(row)
    }
}

/// The index that the instruction names past its table.
pub fn past_operand(bytes: &[u8], tables: &Tables, ins: Ins) -> Option<u32>
    requires tables { AreTablesOf bytes.now tables.now }
    ensures { result ≡ past_table bytes.now (naming_of ins) }
{
    let _ = bytes;
    match ins.named() {
        Naming::Nothing => None,
        Naming::String(row) => unless_row(tables.strings.len(), row),
        Naming::Kind(row) => unless_row(tables.types.len(), row),
        Naming::Field(row) => unless_row(tables.fields.len(), row),
        Naming::Method(row) => unless_row(tables.methods.len(), row),
    }
}

fn words_from(name: &[u8]) -> u64
    ensures words { result ≡ words_of name.now }
    ensures few { result ≤ 2 }
{
    match name {
        [b'V'] => 0,
        [b'J' | b'D', ..] => 2,
        _ => 1,
    }
}

/// The name of a type.
#[tactic(auto, unfolding(dex_tables::specs::Rows::type_name))]
pub fn name_of<'a>(bytes: &'a [u8], tables: &Tables, kind: u32) -> &'a [u8]
    requires tables { AreTablesOf bytes.now tables.now }
    requires row { kind < type_count bytes.now }
    ensures { result.now ≡ type_name bytes.now kind }
{
    match string_bytes(bytes, tables, tables.types[kind as usize]) {
        Some(name) => name,
        None => unreachable!(),
    }
}

/// The type of a parameter.
fn param_from(bytes: &[u8], tables: &Tables, proto: u32, k: u32) -> u32
    requires tables { AreTablesOf bytes.now tables.now }
    requires row { proto < proto_count bytes.now }
    requires param { k < list_size bytes.now (proto_params bytes.now proto) }
    ensures { result ≡ param_type bytes.now proto k }
{
    let _ = bytes;
    let params = tables.protos[proto as usize].params;
    tables.lists[params.at as usize + k as usize] as u32
}

/// The registers that the parameters of a prototype take.
#[tactic(auto, using(crate::proofs::Params::param_is_type), unfolding(crate::specs::Operands::params_words))]
fn params_from(bytes: &[u8], tables: &Tables, proto: u32) -> u64
    requires tables { AreTablesOf bytes.now tables.now }
    requires row { proto < proto_count bytes.now }
    ensures words { result ≡ params_words bytes.now proto }
    ensures bound { result < 2 ^ 34 }
{
    let len = tables.protos[proto as usize].params.len;
    let mut words = 0;
    for k in 0..len {
        words += words_from(name_of(bytes, tables, param_from(bytes, tables, proto, k)));
    }
    words
}

/// The registers that the parameters of a prototype take. They are summed once for a prototype, so that a
/// long list of parameters is not gone over at each call.
fn find_params(
    bytes: &[u8],
    tables: &Tables,
    sums: &mut ParamSums,
    proto: u32,
) -> Result<u64, AllocError>
    requires tables { AreTablesOf bytes.now tables.now }
    requires row { proto < proto_count bytes.now }
    requires sums { AreSums bytes.now sums.old }
    ensures words { IfOk result (λ words. words ≡ params_words bytes.now proto) }
    ensures bound { IfOk result (λ words. words < 2 ^ 34) }
    ensures sums { AreSums bytes.now sums.new }
{
    if let Some(words) = sums.get(&proto) {
        return Ok(*words);
    }
    let words = params_from(bytes, tables, proto);
    sums.insert(proto, words)?;
    Ok(words)
}

/// The registers that the arguments of a method take.
pub fn find_arguments(
    bytes: &[u8],
    tables: &Tables,
    sums: &mut ParamSums,
    is_static: bool,
    method: u32,
) -> Result<u64, AllocError>
    requires tables { AreTablesOf bytes.now tables.now }
    requires row { method < method_count bytes.now }
    requires sums { AreSums bytes.now sums.old }
    ensures words { IfOk result (λ words. words ≡ argument_words bytes.now is_static method) }
    ensures sums { AreSums bytes.now sums.new }
{
    let proto = tables.methods[method as usize].proto as u32;
    let params = find_params(bytes, tables, sums, proto)?;
    Ok(if is_static { params } else { params + 1 })
}

fn len_of(args: Args) -> u64
    ensures { result ≡ args_len args }
{
    match args {
        Args::List { count, .. } => count as u64,
        Args::Range { count, .. } => count as u64,
    }
}

fn calls_static(op: u8) -> bool
    ensures { result ≡ is_static_call op }
{
    op == opcode::INVOKE_STATIC || op == opcode::INVOKE_STATIC_RANGE
}

/// Whether a call names as many registers as its arguments take.
pub fn fits_args(
    bytes: &[u8],
    tables: &Tables,
    sums: &mut ParamSums,
    ins: Ins,
) -> Result<bool, AllocError>
    requires tables { AreTablesOf bytes.now tables.now }
    requires operand { past_table bytes.now (naming_of ins) ≡ None }
    requires sums { AreSums bytes.now sums.old }
    ensures fits { IfOk result (λ fits. fits ≡ has_its_args bytes.now ins) }
    ensures sums { AreSums bytes.now sums.new }
{
    match ins {
        Ins::Invoke { op, method, args } => {
            let words = find_arguments(bytes, tables, sums, calls_static(op), method)?;
            Ok(len_of(args) == words)
        }
        _ => Ok(true),
    }
}
