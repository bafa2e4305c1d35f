//! Files by their paths.
ghost use Rattle.std.specs.Prelude.{◌≡◌, map, option_map};
ghost use Rattle.tb_assembly_files.specs.Libraries.{found, path_at, source_of, text_at};

/// A file: its path, and its text, if it could be read.
#[derive(Drop, Debug)]
pub struct SourceFile {
    pub path: Vec<u8>,
    pub text: Option<Vec<u8>>,
}

/// The number of the file with a path.
pub fn file_with(library: &[SourceFile], path: &[u8]) -> Option<usize>
    ensures { result ≡ found path.now (map source_of library.now) }
{
    for (i, file) in library.iter().enumerate() {
        if file.path.as_slice() == path {
            return Some(i);
        }
    }
    None
}

/// The path of a file by its number; an empty one if there is no such file.
pub fn path_at(library: &[SourceFile], file: usize) -> &[u8]
    ensures { result.now ≡ path_at (map source_of library.now) file }
{
    match library.get(file) {
        Some(file) => file.path.as_slice(),
        None => &[],
    }
}

/// The text of a file by its number, if it could be read.
pub fn text_at(library: &[SourceFile], file: usize) -> Option<&[u8]>
    ensures { option_map (λ t. t.now) result ≡ text_at (map source_of library.now) file }
{
    match library.get(file) {
        Some(file) => match &file.text {
            Some(text) => Some(text.as_slice()),
            None => None,
        },
        None => None,
    }
}
