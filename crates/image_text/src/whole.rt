//! Files of images.

ghost use Rattle.std.specs.Prelude.{◌≡◌, IsTrue, IfOk};
ghost use Rattle.image_text.specs.Answers.{IsRead, IsOnly};
ghost use Rattle.image_text.specs.Texts.{image_form};

use crate::image::Image;
use c3_base::NoMemory;
use file_fields::{Field, ReadFault, Reading};
use std::alloc::Global;

/// Why bytes are not read as an image.
#[derive(Clone, Copy, Debug, PartialEq, Eq)]
pub enum NotImage {
    /// They are no image's text. The place is that of the first field that isn't right or isn't whole, or of what follows the last.
    Wrong { at: usize },
    NoMemory,
}

/// The text of an image.
pub fn write_image(alloc: Global, image: &Image) -> Result<Vec<u8>, NoMemory>
    requires { IsTrue (image_form.fits image.now) }
    ensures { IfOk result (λ text. text.items ≡ image_form.text image.now) }
{
    let mut text = Vec::new(alloc);
    image.write(&mut text)?;
    Ok(text)
}

/// The image with this text.
pub fn read_image(alloc: Global, bytes: &[u8]) -> Result<Image, NotImage>
    ensures read { IsRead image_form bytes.now result }
    ensures only { IsOnly image_form bytes.now result }
{
    read_whole(alloc, bytes)
}

fn read_whole(alloc: Global, bytes: &[u8]) -> Result<Image, NotImage>
    ensures { IsRead image_form bytes.now result }
{
    let mut text = Reading::new(bytes);
    match Image::read(alloc, &mut text) {
        Ok(image) if text.len() == 0 => Ok(image),
        Err(ReadFault::NoMemory) => Err(NotImage::NoMemory),
        _ => Err(NotImage::Wrong {
            at: bytes.len().saturating_sub(text.len()),
        }),
    }
}
