//! Reading class data.
ghost use Rattle.std.specs.Prelude.{◌≡◌, ℕ, ◌↔◌, List, Ok, ◌+◌, ◌^◌, ◌≤◌, ◌<◌, length, vec_len, IfOk, OnOk, MatchOption, false, true};
ghost use Rattle.std.specs.Str.{bytes_eq};
ghost use Rattle.dex_tables.specs.Content.{AreTablesOf};
ghost use Rattle.dex_tables.specs.Rows.{class_count, type_count, type_name};
ghost use Rattle.dex_tables.specs.Reading.{IsReading};
ghost use Rattle.dex_code.specs.Alike.{AreKeptNumbers};
ghost use Rattle.dex_code.specs.ClassData.{row_count, row_class};
ghost use Rattle.dex_code.specs.Content.{AreMembersOf, MemberLists};
ghost use Rattle.dex_tables.specs.Reading.{Gives};
ghost use Rattle.dex_code.specs.Reading.{last_id, index_after, repeats, is_of_class, is_own, code_offset_at, entry_at, with_entry, entries_at, class_data_at, members_at};

use crate::alike::TextNumbers;
use crate::members::{ClassMembers, Member};
use crate::numbers::uleb_from;
use dex_bytes::{DexFault, header_from};
use dex_tables::{Stop, Tables};
use ns_base::{Counted, limit};
use std::alloc::{AllocError, Global};

/// The table that an entry of class data names a row of.
#[derive(Clone, Copy)]
pub enum Kind {
    Field,
    Method,
}

// A list of entries to be read: of which class and kind, how many members came before it, and how many
// entries it has.
#[derive(Clone, Copy)]
struct Wanted {
    class: u32,
    kind: Kind,
    before: u64,
    count: u32,
}

/// The members of a class; none where it has no class data. The first fault in the order of the file is
/// named: `Short` or `Leb` at a number, `MemberIndex` at the place where the entry begins, once its last
/// number was read, and then `Limit(Members)`, which counts this class alone. A type's name, and not its
/// number, tells whether a member is the class's own.
pub fn read_class_members(
    alloc: Global,
    bytes: &[u8],
    tables: &Tables,
    class: u32,
) -> Result<ClassMembers, DexFault>
    requires tables { AreTablesOf bytes.now tables.now }
    requires len { length bytes.now ≤ 4294967295 }
    requires row { class < class_count bytes.now }
    ensures exact { IsReading result (members_at bytes.now class) }
    ensures content { IfOk result (λ members. AreMembersOf bytes.now class members) }
{
    let mut numbers = TextNumbers::new(alloc);
    read_class_members_with(alloc, bytes, tables, &mut numbers, class)
}

/// The same for one of many classes of a file, which share the numbers of its strings.
pub fn read_class_members_with(
    alloc: Global,
    bytes: &[u8],
    tables: &Tables,
    numbers: &mut TextNumbers,
    class: u32,
) -> Result<ClassMembers, DexFault>
    requires tables { AreTablesOf bytes.now tables.now }
    requires len { length bytes.now ≤ 4294967295 }
    requires row { class < class_count bytes.now }
    requires numbers { AreKeptNumbers bytes.now numbers.old }
    ensures exact { IsReading result (members_at bytes.now class) }
    ensures content { IfOk result (λ members. AreMembersOf bytes.now class members) }
    ensures numbers { AreKeptNumbers bytes.now numbers.new }
{
    match read_members(alloc, bytes, tables, numbers, class) {
        Ok(members) => Ok(members),
        Err(Stop::Fault(fault)) => Err(fault),
        Err(Stop::Memory) => Err(DexFault::Memory),
    }
}

/// Reading in order gives exactly the members that stand there by offsets, where they are sound and
/// within the limit.
pub fn members_law()
    ensures { (bs : List ℕ) (class : ℕ) (members : MemberLists) → (members_at bs class ≡ Ok members) ↔ AreMembersOf bs class members }
{}

fn read_members(
    alloc: Global,
    bytes: &[u8],
    tables: &Tables,
    numbers: &mut TextNumbers,
    class: u32,
) -> Result<ClassMembers, Stop>
    requires tables { AreTablesOf bytes.now tables.now }
    requires row { class < class_count bytes.now }
    requires numbers { AreKeptNumbers bytes.now numbers.old }
    ensures members { Gives (λ m. m) result (members_at bytes.now class) }
    ensures numbers { AreKeptNumbers bytes.now numbers.new }
{
    let off = tables.classes[class as usize].members;
    if off == 0 {
        return Ok(ClassMembers {
            statics: Vec::new(alloc),
            instances: Vec::new(alloc),
            directs: Vec::new(alloc),
            virtuals: Vec::new(alloc),
        });
    }
    read_class_data(alloc, bytes, tables, numbers, class, off as usize)
}

#[tactic(auto, unfolding(crate::specs::Reading::class_data_at))]
fn read_class_data(
    alloc: Global,
    bytes: &[u8],
    tables: &Tables,
    numbers: &mut TextNumbers,
    class: u32,
    at: usize,
) -> Result<ClassMembers, Stop>
    requires tables { AreTablesOf bytes.now tables.now }
    requires row { class < class_count bytes.now }
    requires numbers { AreKeptNumbers bytes.now numbers.old }
    ensures members { Gives (λ m. m) result (class_data_at bytes.now class at) }
    ensures numbers { AreKeptNumbers bytes.now numbers.new }
{
    let (static_count, at) = uleb_from(bytes, at)?;
    let (instance_count, at) = uleb_from(bytes, at)?;
    let (direct_count, at) = uleb_from(bytes, at)?;
    let (virtual_count, at) = uleb_from(bytes, at)?;
    let mut wanted = Wanted {
        class,
        kind: Kind::Field,
        before: 0,
        count: static_count,
    };
    let (statics, at) = read_entries(alloc, bytes, tables, numbers, wanted, at)?;
    wanted.before += u64::from(static_count);
    wanted.count = instance_count;
    let (instances, at) = read_entries(alloc, bytes, tables, numbers, wanted, at)?;
    wanted.kind = Kind::Method;
    wanted.before += u64::from(instance_count);
    wanted.count = direct_count;
    let (directs, at) = read_entries(alloc, bytes, tables, numbers, wanted, at)?;
    wanted.before += u64::from(direct_count);
    wanted.count = virtual_count;
    let (virtuals, _) = read_entries(alloc, bytes, tables, numbers, wanted, at)?;
    Ok(ClassMembers {
        statics,
        instances,
        directs,
        virtuals,
    })
}

// A list of entries, and the place after it.
fn read_entries(
    alloc: Global,
    bytes: &[u8],
    tables: &Tables,
    numbers: &mut TextNumbers,
    wanted: Wanted,
    at: usize,
) -> Result<(Vec<Member>, usize), Stop>
    requires tables { AreTablesOf bytes.now tables.now }
    requires row { wanted.class < class_count bytes.now }
    requires room { wanted.before < 2 ^ 34 }
    requires numbers { AreKeptNumbers bytes.now numbers.old }
    ensures entries { Gives (λ r. record { place = r.1; members = r.0.items }) result (entries_at bytes.now wanted.class wanted.kind wanted.before at wanted.count) }
    ensures numbers { AreKeptNumbers bytes.now numbers.new }
{
    let mut members = Vec::new(alloc);
    let mut end = at;
    for i in 0..wanted.count {
        end = add_entry(alloc, bytes, tables, numbers, wanted, end, &mut members)?;
    }
    Ok((members, end))
}

// One entry more, and the place after it.
#[tactic(auto, unfolding(crate::specs::Reading::with_entry))]
fn add_entry(
    alloc: Global,
    bytes: &[u8],
    tables: &Tables,
    numbers: &mut TextNumbers,
    wanted: Wanted,
    at: usize,
    members: &mut Vec<Member>,
) -> Result<usize, Stop>
    requires tables { AreTablesOf bytes.now tables.now }
    requires row { wanted.class < class_count bytes.now }
    requires room { (wanted.before < 2 ^ 34) × (vec_len members.old < 2 ^ 32) }
    requires numbers { AreKeptNumbers bytes.now numbers.old }
    ensures len { OnOk result (vec_len members.new ≡ vec_len members.old + 1) }
    ensures entry { Gives (λ end. record { place = end; members = members.new.items }) result (with_entry bytes.now wanted.class wanted.kind wanted.before (record { place = at; members = members.old.items })) }
    ensures numbers { AreKeptNumbers bytes.now numbers.new }
{
    let prior = last_id_of(members);
    let (member, end) = entry_from(alloc, bytes, tables, numbers, wanted, prior, at)?;
    if wanted.before + members.len() as u64 + 1 > limit(Counted::Members) {
        return Err(Stop::Fault(DexFault::Limit(Counted::Members)));
    }
    members.push(member)?;
    Ok(end)
}

fn last_id_of(members: &[Member]) -> Option<u32>
    ensures { result ≡ last_id members.now }
{
    members.last().map(|member| member.id)
}

// The entry at a place, where the member before it has this index, and the place after it.
#[tactic(auto, unfolding(crate::specs::Reading::entry_at))]
fn entry_from(
    alloc: Global,
    bytes: &[u8],
    tables: &Tables,
    numbers: &mut TextNumbers,
    wanted: Wanted,
    prior: Option<u32>,
    at: usize,
) -> Result<(Member, usize), Stop>
    requires tables { AreTablesOf bytes.now tables.now }
    requires row { wanted.class < class_count bytes.now }
    requires numbers { AreKeptNumbers bytes.now numbers.old }
    ensures entry { Gives (λ e. e) result (entry_at bytes.now wanted.class wanted.kind prior at) }
    ensures numbers { AreKeptNumbers bytes.now numbers.new }
{
    let (difference, flags_at) = uleb_from(bytes, at)?;
    let (flags, code_at) = uleb_from(bytes, flags_at)?;
    let (code, end) = code_offset_from(bytes, wanted.kind, code_at)?;
    match own_index(alloc, bytes, tables, numbers, wanted, prior, difference)? {
        Some(id) => Ok((Member { id, flags, code }, end)),
        None => Err(Stop::Fault(DexFault::MemberIndex(at))),
    }
}

fn code_offset_from(bytes: &[u8], kind: Kind, at: usize) -> Result<(u32, usize), DexFault>
    ensures { result ≡ code_offset_at bytes.now kind at }
{
    match kind {
        Kind::Field => Ok((0, at)),
        Kind::Method => uleb_from(bytes, at),
    }
}

// The index of the next member, where the class may have it.
fn own_index(
    alloc: Global,
    bytes: &[u8],
    tables: &Tables,
    numbers: &mut TextNumbers,
    wanted: Wanted,
    prior: Option<u32>,
    difference: u32,
) -> Result<Option<u32>, AllocError>
    requires tables { AreTablesOf bytes.now tables.now }
    requires row { wanted.class < class_count bytes.now }
    requires numbers { AreKeptNumbers bytes.now numbers.old }
    ensures own { IfOk result (λ own. MatchOption own
        (is_own bytes.now wanted.class wanted.kind prior difference ≡ false)
        (λ id. (is_own bytes.now wanted.class wanted.kind prior difference ≡ true) × (id ≡ index_after prior difference))) }
    ensures numbers { AreKeptNumbers bytes.now numbers.new }
{
    let index = next_index(prior, difference);
    if index >= u64::from(rows_of(bytes, wanted.kind)) || is_repeated(prior, difference) {
        return Ok(None);
    }
    let id = index as u32;
    if is_of(alloc, bytes, tables, numbers, wanted, id)? {
        Ok(Some(id))
    } else {
        Ok(None)
    }
}

fn next_index(prior: Option<u32>, difference: u32) -> u64
    ensures { result ≡ index_after prior difference }
{
    match prior {
        Some(id) => u64::from(id) + u64::from(difference),
        None => u64::from(difference),
    }
}

fn is_repeated(prior: Option<u32>, difference: u32) -> bool
    ensures { result ≡ repeats prior difference }
{
    match prior {
        Some(_) => difference == 0,
        None => false,
    }
}

// How many rows the table has.
fn rows_of(bytes: &[u8], kind: Kind) -> u32
    requires { 112 ≤ length bytes.now }
    ensures { result ≡ row_count bytes.now kind }
{
    let header = header_from(bytes);
    match kind {
        Kind::Field => header.fields.size,
        Kind::Method => header.methods.size,
    }
}

// A row of the table is of the class.
#[tactic(auto, unfolding(crate::specs::Reading::is_of_class))]
fn is_of(
    alloc: Global,
    bytes: &[u8],
    tables: &Tables,
    numbers: &mut TextNumbers,
    wanted: Wanted,
    id: u32,
) -> Result<bool, AllocError>
    requires tables { AreTablesOf bytes.now tables.now }
    requires row { wanted.class < class_count bytes.now }
    requires id { id < row_count bytes.now wanted.kind }
    requires numbers { AreKeptNumbers bytes.now numbers.old }
    ensures own { IfOk result (λ own. own ≡ is_of_class bytes.now wanted.class wanted.kind id) }
    ensures numbers { AreKeptNumbers bytes.now numbers.new }
{
    let class = tables.classes[wanted.class as usize].class;
    let owner = class_of(bytes, tables, wanted.kind, id);
    have_one_name(alloc, bytes, tables, numbers, owner, class)
}

fn class_of(bytes: &[u8], tables: &Tables, kind: Kind, id: u32) -> u32
    requires tables { AreTablesOf bytes.now tables.now }
    requires id { id < row_count bytes.now kind }
    ensures value { result ≡ row_class bytes.now kind id }
    ensures within { result < type_count bytes.now }
{
    match kind {
        Kind::Field => u32::from(tables.fields[id as usize].class),
        Kind::Method => u32::from(tables.methods[id as usize].class),
    }
}

// Two types have one name, by the bytes of their strings.
#[tactic(auto, unfolding(dex_tables::specs::Rows::type_name))]
fn have_one_name(
    alloc: Global,
    bytes: &[u8],
    tables: &Tables,
    numbers: &mut TextNumbers,
    first: u32,
    second: u32,
) -> Result<bool, AllocError>
    requires tables { AreTablesOf bytes.now tables.now }
    requires first { first < type_count bytes.now }
    requires second { second < type_count bytes.now }
    requires numbers { AreKeptNumbers bytes.now numbers.old }
    ensures same { IfOk result (λ same. same ≡ bytes_eq (type_name bytes.now first) (type_name bytes.now second)) }
    ensures numbers { AreKeptNumbers bytes.now numbers.new }
{
    let string = tables.types[first as usize];
    let other = tables.types[second as usize];
    numbers.are_alike(alloc, bytes, tables, string, other)
}
