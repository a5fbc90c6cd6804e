//! The names of documents, from the names of input files or of the output.
ghost use Rattle.std.specs.Prelude.{◌≡◌, ◌≤◌, ◌<◌, ◌++◌, None, IfOk, IfSome, OnOk, codes, get_or, length, option_map, string_bytes};
ghost use Rattle.std.specs.Str.{IsCharBoundary};
ghost use Rattle.run_output.specs.Names.{backend_suffix, base_name, document_name, last_place, part_begins, stem_of, suffix_begins, suffix_of};

use itoa::Buffer;
use pt_core::Backend;
use std::alloc::{AllocError, Global};

/// The base name of all documents of a file. It is the output's name if one is given; else the file's name with
/// `suffix` instead of its own suffix.
pub fn base_name(
    alloc: Global,
    output: Option<&str>,
    suffix: &str,
    file: &str,
) -> Result<String, AllocError>
    ensures { IfOk result (λ name. string_bytes name
        ≡ base_name (option_map (λ s. s.now) output.entry) suffix.now file.now) }
{
    match output {
        Some(output) => String::from_str(alloc, output),
        None => file_base_name(alloc, suffix, file),
    }
}

fn file_base_name(alloc: Global, suffix: &str, file: &str) -> Result<String, AllocError>
    ensures { IfOk result (λ name. string_bytes name ≡ base_name None suffix.now file.now) }
{
    if file == "-" {
        return String::from_str(alloc, "-");
    }
    let at = suffix_begins(file);
    let mut name = String::from_str(alloc, &file[..at])?;
    name.push_str(suffix)?;
    Ok(name)
}

/// The suffix of a backend's documents, with its dot.
pub fn backend_suffix(backend: Backend) -> &'static str
    ensures { result.now ≡ backend_suffix backend }
{
    match backend {
        Backend::Eps => ".eps",
        Backend::Ps => ".ps",
        Backend::Svg => ".svg",
        Backend::Dxf => ".dxf",
        Backend::GeoJson => ".json",
        Backend::Points => ".points",
        Backend::Polygons => ".polygons",
        Backend::Proofs => ".proofs",
    }
}

/// The name of the k-th document with a base name, counted from 1.
pub fn document_name(alloc: Global, base: &str, k: u32) -> Result<String, AllocError>
    ensures { IfOk result (λ name. string_bytes name ≡ document_name base.now k) }
{
    if base == "-" || k <= 1 {
        return String::from_str(alloc, base);
    }
    let mut digits = Buffer::new();
    numbered_name(alloc, base, digits.format(k))
}

/// A base name with a dash and this number before its suffix. The number is given in digits.
fn numbered_name(alloc: Global, base: &str, number: &str) -> Result<String, AllocError>
    ensures { IfOk result (λ name. string_bytes name
        ≡ stem_of base.now ++ (codes "-" ++ (number.now ++ suffix_of base.now))) }
{
    let at = suffix_begins(base);
    let mut name = String::from_str(alloc, &base[..at])?;
    push_number(&mut name, number, &base[at..])?;
    Ok(name)
}

/// Appends a dash, a number in digits, and a suffix.
fn push_number(name: &mut String, number: &str, suffix: &str) -> Result<(), AllocError>
    ensures { OnOk result (string_bytes name.new
        ≡ string_bytes name.old ++ (codes "-" ++ (number.now ++ suffix.now))) }
{
    name.push_str("-")?;
    name.push_str(number)?;
    name.push_str(suffix)
}

/// The index at which the suffix of a name begins, or its length if it has no suffix.
fn suffix_begins(name: &str) -> usize
    ensures value { result ≡ suffix_begins name.now }
    ensures boundary { IsCharBoundary name.now result }
    ensures within { result ≤ length name.now }
{
    match last_place(name.as_bytes(), b'.') {
        Some(dot) if part_begins(name.as_bytes()) < dot => dot,
        _ => name.len(),
    }
}

/// The index at which the last part of a path begins, after its last slash.
fn part_begins(name: &[u8]) -> usize
    ensures { result ≡ part_begins name.now }
{
    match last_place(name, b'/') {
        Some(slash) => slash + 1,
        None => 0,
    }
}

/// The index of the last byte of this value, if there is one.
fn last_place(name: &[u8], byte: u8) -> Option<usize>
    ensures value { result ≡ last_place byte name.now }
    ensures found { IfSome result
        (λ i. (i < length name.now) × (get_or name.now i 0 ≡ byte)) }
{
    let mut end = name.len();
    while end > 0 {
        if name[end - 1] == byte {
            return Some(end - 1);
        }
        end -= 1;
    }
    None
}
