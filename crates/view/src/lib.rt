// The public calls that only look at a block. RULES 2.4 and 6.
// None asks anything of its caller: a block of another length is refused (1), one that breaks a rule (21 to 26, and where), then what is asked
// (4, 6).
// A refusal changes no lent byte. The meaning is in specs/Looks, with the refusals inside. Each call tests, and then asks a worker of
// `block_picture`, which takes a valid block and refuses nothing; whoever looks at one block many times asks `check` once and then the workers.
#![tactic(auto)]

ghost use Rattle.std.specs.Prelude.{◌≡◌, IfOk, IfErr};
ghost use Rattle.refusal.specs.Codes.{code_of, code_or_0};
ghost use Rattle.view.specs.Refusal.{refusal_of};
ghost use Rattle.block_picture.specs.Drawn.{row_drawn, picture_drawn};
ghost use Rattle.view.specs.Looks.{mode_of, backdrop_answer, shade_answer, entry_answer, border_answer, row_answer, picture_answer, leaves};
ghost use Rattle.view.specs.Answers.{number_told, colour_told, entry_told, border_told};

use block_picture::of_block::ValidBlock;
use colour::{BorderMapEntry, Rgb555};
use refusal::Refusal;

// Whether a block by itself calls for a refusal, and which. Which byte is wrong is looked for only where one is.
pub fn check(block: &[u8]) -> Result<(), Refusal>
    ensures { code_or_0 result ≡ refusal_of block.now }
{
    if block.len() != parts::BLOCK {
        return Err(Refusal::Length);
    }
    block_broken::broken(block)
}

// The block, once it is known to be valid.
fn valid(block: &[u8]) -> Result<ValidBlock<'_>, Refusal>
    ensures ok { IfOk result (λ v. v.bytes.now ≡ block.now) }
    ensures err { IfErr result (λ r. code_of r ≡ refusal_of block.now) }
{
    check(block)?;
    Ok(ValidBlock { bytes: block })
}

pub fn mask_mode(block: &[u8]) -> Result<usize, Refusal>
    ensures { number_told result ≡ mode_of block.now }
{
    let block = valid(block)?;
    Ok(usize::from(block.mode()))
}

// The colour of everything that nothing covers.
pub fn backdrop(block: &[u8]) -> Result<Rgb555, Refusal>
    ensures { colour_told result ≡ backdrop_answer block.now }
{
    let block = valid(block)?;
    Ok(block_picture::backdrop(block))
}

// The colour of a shade at column x of row y of the screen. It doesn't look at the mask.
pub fn color_at(block: &[u8], x: usize, y: usize, shade: u8) -> Result<Rgb555, Refusal>
    ensures { colour_told result ≡ shade_answer block.now x y shade }
{
    let block = valid(block)?;
    if x >= 160 || y >= 144 || shade > 3 {
        return Err(Refusal::Place);
    }
    Ok(block_picture::shade(block, x, y, shade))
}

// The border's map word at a column of a row.
pub fn map_entry(block: &[u8], column: usize, row: usize) -> Result<BorderMapEntry, Refusal>
    ensures { entry_told result ≡ entry_answer block.now column row }
{
    let block = valid(block)?;
    if column >= 32 || row >= 28 {
        return Err(Refusal::Place);
    }
    Ok(block_picture::entry(block, column, row))
}

// The border's colour at column x of row y of the picture, or none where it is transparent.
pub fn border_color_at(block: &[u8], x: usize, y: usize) -> Result<Option<Rgb555>, Refusal>
    ensures { border_told result ≡ border_answer block.now x y }
{
    let block = valid(block)?;
    if x >= 256 || y >= 224 {
        return Err(Refusal::Place);
    }
    Ok(block_picture::border(block, x, y))
}

// Row y of the picture: 256 words.
pub fn row(block: &[u8], y: usize, out: &mut [u16]) -> Result<usize, Refusal>
    ensures result_value { number_told result ≡ row_answer block.now y out.old }
    ensures out_after { out.new ≡ leaves (row_answer block.now y out.old) (row_drawn block.now y out.old) out.old }
{
    let block = valid(block)?;
    if y >= 224 {
        return Err(Refusal::Place);
    }
    if out.len() < 256 {
        return Err(Refusal::Output);
    }
    block_picture::draw_row(block, y, out);
    Ok(256)
}

// The whole picture: 57,344 words, row by row.
pub fn picture(block: &[u8], out: &mut [u16]) -> Result<usize, Refusal>
    ensures result_value { number_told result ≡ picture_answer block.now out.old }
    ensures out_after { out.new ≡ leaves (picture_answer block.now out.old) (picture_drawn block.now out.old) out.old }
{
    let block = valid(block)?;
    if out.len() < 57344 {
        return Err(Refusal::Output);
    }
    block_picture::draw_picture(block, out);
    Ok(57344)
}
