// Prints a file of books or of calls as plain text, one record a line. The file is read word by word through a buffer,
// so that its size does not matter; at the first word that is not as it should be the text ends in a line `broken`.

#![tactic(auto)]

mod shapes; // the records of the files, and their fields
mod text; // the words as text
mod words; // the words of the file, one after another

use std::{env, fs, io};
use text::Text;

// The file at this path; where it cannot be opened, the standard error says why.
fn show_path(rt: &HostRuntime, path: &str) -> io::Result<()> {
    match fs::open(rt, path) {
        Ok(opened) => Text::new(opened, rt.stdout()).show(),
        Err(e) => eprintln!(rt; "{path}: {e}"),
    }
}

fn main(rt: HostRuntime) -> io::Result<()> {
    match env::args(&rt)?.nth(1) {
        Some(path) => show_path(&rt, path.as_str()),
        None => println!(rt; "show: which file?"),
    }
}
