ghost use Rattle.std.specs.Prelude.{◌≡◌};
ghost use Rattle.std.specs.Iterator.{YieldsFirstBy, item_count};
ghost use Rattle.sub_base.specs.Picture.{every_second_row};

use crate::picture::Indexed;
use std::marker::Model;

/// The rows of one field of a picture, from the top, each as its codes from the left: seen as the
/// list of the rows that are left.
#[derive(Drop)]
pub struct FieldRows<'a> {
    picture: &'a Indexed,
    // The next row, which may lie below the picture's last.
    next: u32,
}

impl<'a> Model for FieldRows<'a> {
    ghost use Rattle.std.specs.Prelude.{ℕ, List};

    ghost Value = { List (List ℕ) };

    ghost use Rattle.sub_base.specs.Picture.{every_second_row};

    ghost view = { λ rows. every_second_row rows.picture.now rows.next };
}

impl<'a> FieldRows<'a> {
    // Every second row from row `first` on.
    pub(crate) fn starting_at(picture: &'a Indexed, first: u16) -> FieldRows<'a>
        ensures { result ≡ every_second_row picture.now first }
    {
        FieldRows {
            picture,
            next: u32::from(first),
        }
    }
}

impl<'a> Iterator for FieldRows<'a> {
    type Item = &'a [u8];

    ghost next_gives = { YieldsFirstBy (λ row. row.now) (λ rows. rows) };

    ghost remaining = { item_count (λ rows. rows) };

    fn next(&mut self) -> Option<&'a [u8]> {
        if self.next >= u32::from(self.picture.height()) {
            return None;
        }
        let row = self.picture.row(self.next as u16);
        // In 32 bits, since behind the last row of a picture of 65,535 rows 16 bits are not enough.
        self.next += 2;
        Some(row)
    }
}
