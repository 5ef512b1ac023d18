//! The names of the files of a folder.

ghost use Rattle.std.specs.Prelude.{IfOk, IsSorted, string_cmp};

use std::alloc::{AllocError, AllocGlobal};
use std::rt::Files;
use std::{fs, io};

/// The names of the files of a folder that end so, without that ending, in order.
///
/// # Errors
///
/// Where the folder can't be read, or memory is refused.
pub fn names_in<F: Files + AllocGlobal + Clone>(
    files: &F,
    folder: &str,
    ending: &str,
) -> io::Result<Vec<String>>
    ensures { IfOk result (λ names. IsSorted string_cmp names.items) }
{
    let mut names = Vec::new(files.alloc());
    put_names(files, folder, ending, &mut names)?;
    names.sort()?;
    Ok(names)
}

/// The same in any order, put into a list without names.
///
/// It borrows the list: owned here, its drop would be proved on each way out.
fn put_names<F: Files + AllocGlobal + Clone>(
    files: &F,
    folder: &str,
    ending: &str,
    names: &mut Vec<String>,
) -> io::Result<()> {
    for entry in fs::read_dir(files, folder)? {
        put_name(names, entry?.file_name(), ending)?;
    }
    Ok(())
}

/// Puts the name of a file, if it ends so.
fn put_name(names: &mut Vec<String>, file: &str, ending: &str) -> Result<(), AllocError> {
    if let Some(name) = file.strip_suffix(ending) {
        let name = String::from_str(*names.allocator(), name)?;
        names.push(name)?;
    }
    Ok(())
}
