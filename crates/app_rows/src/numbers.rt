//! The numbers of types, names and prototypes over all files.
ghost use Rattle.std.specs.Prelude.{◌≡◌, ◌≤◌, ◌+◌, ◌*◌, length, map, slice_index, IfOk};
ghost use Rattle.app_rows.specs.Numbers.{string_at, with_new, type_texts, types_in, names_in, type_numbers, proto_numbers, protos_of, protos_in, number_in, seen_in, numbers_of};
ghost use Rattle.app_rows.specs.Small.{AreSmall};

use crate::seen::{Protos, Texts};
use dex_file::{FileParts, FileProto};
use std::alloc::{AllocError, Global};
use std::marker::Model;

/// All types, names and prototypes by number.
#[derive(Drop)]
pub struct SeenLists {
    pub types: Texts,
    pub names: Texts,
    pub protos: Protos,
}

impl Model for SeenLists {
    ghost use Rattle.app_rows.specs.Numbers.{Seen};

    ghost Value = { Seen };

    ghost view = { λ s. record { types = s.types; names = s.names; protos = s.protos } };
}

/// The number of each row of a file's tables of types, strings and prototypes.
#[derive(Drop)]
pub struct FileNumbers {
    pub types: Vec<u32>,
    pub names: Vec<u32>,
    pub protos: Vec<u32>,
}

impl Model for FileNumbers {
    ghost use Rattle.app_rows.specs.Numbers.{Numbers};

    ghost Value = { Numbers };

    ghost view = { λ n. record { types = n.types.items; names = n.names.items; protos = n.protos.items } };
}

/// The number of a row; 0 past the table.
pub fn number_at(numbers: &[u32], row: u32) -> u32
    ensures { result ≡ slice_index numbers.now row }
{
    match numbers.get(row as usize) {
        Some(number) => *number,
        None => 0,
    }
}

fn string_at(file: &FileParts, string: u32) -> &[u8]
    ensures { result.now ≡ string_at file.now string }
{
    match file.strings.get(string as usize) {
        Some(text) => text,
        None => &[],
    }
}

fn see_types(alloc: Global, types: &mut Texts, file: &FileParts) -> Result<(), AllocError>
    ensures texts { IfOk result (λ _. types.new ≡ with_new types.old (type_texts file.now)) }
    ensures len { IfOk result (λ _. length types.new ≤ length types.old + length file.now.types) }
{
    for t in 0..file.types.len() {
        types.add(alloc, string_at(file, file.types[t]))?;
    }
    Ok(())
}

fn see_names(alloc: Global, names: &mut Texts, strings: &[Vec<u8>]) -> Result<(), AllocError>
    ensures texts { IfOk result (λ _. names.new ≡ with_new names.old (map (λ v. v.items) strings.now)) }
    ensures len { IfOk result (λ _. length names.new ≤ length names.old + length strings.now) }
{
    for s in 0..strings.len() {
        names.add(alloc, &strings[s])?;
    }
    Ok(())
}

fn see_all_types(alloc: Global, files: &[FileParts]) -> Result<Texts, AllocError>
    requires { AreSmall files.now }
    ensures texts { IfOk result (λ types. types ≡ types_in files.now) }
    ensures len { IfOk result (λ types. length types ≤ 134217728) }
{
    let mut types = Texts::new(alloc);
    for n in 0..files.len() {
        see_types(alloc, &mut types, &files[n])?;
    }
    Ok(types)
}

fn see_all_names(alloc: Global, files: &[FileParts]) -> Result<Texts, AllocError>
    requires { AreSmall files.now }
    ensures texts { IfOk result (λ names. names ≡ names_in files.now) }
    ensures len { IfOk result (λ names. length names ≤ 134217728) }
{
    let mut names = Texts::new(alloc);
    for n in 0..files.len() {
        let file = &files[n];
        see_names(alloc, &mut names, &file.strings)?;
    }
    Ok(names)
}

fn number_types(alloc: Global, types: &Texts, file: &FileParts) -> Result<Vec<u32>, AllocError>
    requires { length types.now ≤ 134217728 }
    ensures { IfOk result (λ numbers. numbers.items ≡ type_numbers types.now file.now) }
{
    let mut numbers = Vec::with_capacity(alloc, file.types.len())?;
    for t in 0..file.types.len() {
        numbers.push(types.number(string_at(file, file.types[t])))?;
    }
    Ok(numbers)
}

fn number_names(alloc: Global, names: &Texts, strings: &[Vec<u8>]) -> Result<Vec<u32>, AllocError>
    requires { length names.now ≤ 134217728 }
    ensures { IfOk result (λ numbers. numbers.items ≡ map (number_in names.now) (map (λ v. v.items) strings.now)) }
{
    let mut numbers = Vec::with_capacity(alloc, strings.len())?;
    for s in 0..strings.len() {
        numbers.push(names.number(&strings[s]))?;
    }
    Ok(numbers)
}

fn spell_proto(alloc: Global, types: &[u32], proto: &FileProto) -> Result<Vec<u32>, AllocError>
    ensures { IfOk result (λ numbers. numbers.items ≡ proto_numbers types.now proto.now) }
{
    let mut numbers = Vec::new(alloc);
    numbers.push(number_at(types, proto.result))?;
    for param in &proto.params {
        numbers.push(number_at(types, u32::from(*param)))?;
    }
    Ok(numbers)
}

fn see_protos(
    alloc: Global,
    protos: &mut Protos,
    types: &[u32],
    file: &FileParts,
) -> Result<(), AllocError>
    ensures protos { IfOk result (λ _. protos.new ≡ with_new protos.old (map (proto_numbers types.now) file.now.protos)) }
    ensures len { IfOk result (λ _. length protos.new ≤ length protos.old + length file.now.protos) }
{
    for p in 0..file.protos.len() {
        protos.add(spell_proto(alloc, types, &file.protos[p])?)?;
    }
    Ok(())
}

fn see_file_protos(
    alloc: Global,
    protos: &mut Protos,
    types: &Texts,
    file: &FileParts,
) -> Result<(), AllocError>
    requires { length types.now ≤ 134217728 }
    ensures protos { IfOk result (λ _. protos.new ≡ with_new protos.old (protos_of types.now file.now)) }
    ensures len { IfOk result (λ _. length protos.new ≤ length protos.old + length file.now.protos) }
{
    let numbers = number_types(alloc, types, file)?;
    see_protos(alloc, protos, &numbers, file)
}

fn see_all_protos(alloc: Global, types: &Texts, files: &[FileParts]) -> Result<Protos, AllocError>
    requires small { AreSmall files.now }
    requires types { length types.now ≤ 134217728 }
    ensures protos { IfOk result (λ protos. protos ≡ protos_in types.now files.now) }
    ensures len { IfOk result (λ protos. length protos ≤ 134217728) }
{
    let mut protos = Protos::new(alloc);
    for n in 0..files.len() {
        see_file_protos(alloc, &mut protos, types, &files[n])?;
    }
    Ok(protos)
}

fn number_protos(
    alloc: Global,
    protos: &Protos,
    types: &[u32],
    file: &FileParts,
) -> Result<Vec<u32>, AllocError>
    requires { length protos.now ≤ 134217728 }
    ensures { IfOk result (λ numbers. numbers.items ≡ map (number_in protos.now) (map (proto_numbers types.now) file.now.protos)) }
{
    let mut numbers = Vec::with_capacity(alloc, file.protos.len())?;
    for p in 0..file.protos.len() {
        let proto = spell_proto(alloc, types, &file.protos[p])?;
        numbers.push(protos.number(&proto))?;
    }
    Ok(numbers)
}

/// All types, names and prototypes of the files.
#[tactic(auto, unfolding(crate::specs::Numbers::seen_in))]
pub fn see(alloc: Global, files: &[FileParts]) -> Result<SeenLists, AllocError>
    requires { AreSmall files.now }
    ensures lists { IfOk result (λ seen. seen ≡ seen_in files.now) }
    ensures types { IfOk result (λ seen. length seen.types ≤ 134217728) }
    ensures names { IfOk result (λ seen. length seen.names ≤ 134217728) }
    ensures protos { IfOk result (λ seen. length seen.protos ≤ 134217728) }
{
    let types = see_all_types(alloc, files)?;
    let names = see_all_names(alloc, files)?;
    let protos = see_all_protos(alloc, &types, files)?;
    Ok(SeenLists {
        types,
        names,
        protos,
    })
}

/// The numbers of a file's rows.
pub fn number_file(
    alloc: Global,
    seen: &SeenLists,
    file: &FileParts,
) -> Result<FileNumbers, AllocError>
    requires types { length seen.now.types ≤ 134217728 }
    requires names { length seen.now.names ≤ 134217728 }
    requires protos { length seen.now.protos ≤ 134217728 }
    ensures { IfOk result (λ numbers. numbers ≡ numbers_of seen.now file.now) }
{
    let types = number_types(alloc, &seen.types, file)?;
    let names = number_names(alloc, &seen.names, &file.strings)?;
    let protos = number_protos(alloc, &seen.protos, &types, file)?;
    Ok(FileNumbers {
        types,
        names,
        protos,
    })
}
