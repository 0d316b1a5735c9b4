//! The names of the files of a folder.
ghost use Rattle.std.specs.Prelude.{◌≡◌};
ghost use Rattle.pc_texts.specs.FileNames.{last_digit, name_of_file};
ghost use Rattle.pc_texts.specs.declared.file_names.FileName.TheVariants as file;

use pc_types::Point;

/// A file of the folder that a run leaves.
#[derive(Clone, Copy, Debug, PartialEq, Eq)]
pub enum FileName {
    /// `base.pcb`.
    Base,
    /// `part-NNNNN.pcp`, of this point.
    Part(Point),
    /// `log.pcl`.
    Log,
}

// The last decimal digit of the number, as it is written.
fn last_digit(number: u16) -> u8
    ensures { result ≡ last_digit number }
{
    b'0' + (number % 10) as u8
}

/// The name of the file of a point.
pub fn part_name(point: Point) -> [u8; 14]
    ensures { result ≡ name_of_file (file.Part point) }
{
    let Point(number) = point;
    let mut name = *b"part-00000.pcp";
    name[5] = last_digit(number / 10_000);
    name[6] = last_digit(number / 1_000);
    name[7] = last_digit(number / 100);
    name[8] = last_digit(number / 10);
    name[9] = last_digit(number);
    name
}
