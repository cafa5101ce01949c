//! Texts that several tests read.

/// A font of one glyph.
pub const FONT: &[u8] = b"STARTFONT 2.1\n\
      FONTBOUNDINGBOX 3 4 0 -1\n\
      STARTCHAR A\n\
      ENCODING 65\n\
      DWIDTH 3 0\n\
      BBX 2 3 0 0\n\
      BITMAP\n\
      40\n\
      C0\n\
      40\n\
      ENDCHAR\n\
      ENDFONT\n";

/// A script's head, with an epoch, its region and a picture behind it.
pub const PICTURE_HEAD: &str =
    "origin,0\ndisplay,40,30\nrefresh,5\nepoch,90000\nregion,0,0,0,20,20,4,0\npicture,a,4,2,1,3F\n";
