// The image that a program starts with, and the line of one that is cut short.
ghost use Rattle.std.specs.Prelude.{◌≡◌, ◌^◌, ◌<◌, length};
ghost use Rattle.layout.specs.Layout.{word_at};
ghost use Rattle.text.specs.Text.{Adds, PutFirst};
ghost use Rattle.trace_ends.specs.Image.{image_into, image_line};

use layout::reader::join;
use text::text::Text;

// A word of the image. A byte past its end is 0.
fn image_word(bytes: &[u8], i: usize) -> u16
    requires { i < 2 ^ 63 }
    ensures { result ≡ word_at bytes.now i }
{
    let high = bytes.get(i).copied().unwrap_or(0);
    let low = bytes.get(i + 1).copied().unwrap_or(0);
    join(high, low)
}

// The image's words, high byte first, over the whole RAM.
#[tactic(auto, unfolding(words::specs::Fill::fill_from, crate::specs::Image::image_into), using(words::proofs::Fill::fill_more))]
pub fn load_image(ram: &mut [u16], bytes: &[u8])
    ensures { ram.new ≡ image_into bytes.now ram.old (length ram.old) }
{
    for (i, word) in ram.iter_mut().enumerate() {
        *word = image_word(bytes, 2 * i);
    }
}

#[tactic(auto, unfolding(crate::specs::Image::image_line))]
pub fn put_image(text: &mut Text, bytes: u64)
    ensures { Adds text.old (image_line bytes) text.new }
{
    text.put_named(b"image", bytes);
}

// The line of an image that is cut short. Answers its length.
pub fn put_image_line(out: &mut [u8], bytes: usize) -> usize
    ensures { PutFirst out.old (image_line bytes) out.new result }
{
    let mut text = Text { out, at: 0 };
    put_image(&mut text, bytes as u64);
    text.at
}
