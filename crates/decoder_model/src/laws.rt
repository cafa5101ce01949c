//! A display set as a usual encoder makes it.

ghost use Rattle.decoder_model.specs.UsualEncoder.{IsUsualSetShown};

/// A packet with a unit as a usual encoder makes it, byte by byte, brings one display set, which is
/// shown on a display of 720 by 576 pixels in the default colours of two bits.
pub fn usual_set_is_shown()
    ensures { IsUsualSetShown }
{}
