// Formatting: a fresh catalogue for a disk, whatever the bytes of both were.
ghost use Rattle.std.specs.Prelude.{◌≡◌};
ghost use Rattle.manager.specs.Outcomes.{format_outcome};
ghost use Rattle.answers.specs.Answers.{reply_of};

use answers::{Answer, Answered, Refusal};
use catalogue::Version;
use section::Section;

// Makes the catalogue that of a disk with no file, and answers its number of blocks. The disk is not touched.
pub fn format(cat: &mut [u8], disk: &[u8]) -> Answer
    ensures answer { reply_of result ≡ (format_outcome cat.old disk.now).reply }
    ensures catalogue { cat.new
        ≡ (format_outcome cat.old disk.now).catalogue }
    ensures disk { disk.exit.now ≡ (format_outcome cat.old disk.now).disk }
{
    let version = Version::of_length(cat.len());
    if cat.len() != version.bytes {
        return Err(Refusal::CatalogueLength);
    }
    if disk.len() == 0 {
        return Err(Refusal::NoDisk);
    }
    if disk.len() % Section::BLOCK_SIZE != 0 {
        return Err(Refusal::NoDisk);
    }
    let blocks = disk.len() / Section::BLOCK_SIZE;
    if blocks > version.greatest_blocks() as usize {
        return Err(Refusal::NoDisk);
    }
    let c = blocks as u32;
    let free = calls::fresh_free(c);
    encoder::store_fresh(cat, version, c, free);
    Ok(Answered::Number(c))
}
