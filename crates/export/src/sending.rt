// The pulses of a command, whether it conforms (the crate `pulses`), and the screen that carries a page (`pages`).
ghost use Rattle.std.specs.Prelude.{◌≡◌, length};
ghost use Rattle.pulses.specs.Encode.{encoding, encoded};
ghost use Rattle.pulses.specs.Verdict.{judged};
ghost use Rattle.pages.specs.Pixels.{page_screen_answer, page_screen_left};
ghost use Rattle.export_answers.specs.Coded.{coded, value, truth};

#[unsafe(no_mangle)]
pub extern "C" fn sporedrift_encode(command: &[u8], out: &mut [u8]) -> u32
    ensures value { result ≡ coded value (encoding command.now (length out.old)) }
    ensures out_after { out.new ≡ encoded command.now out.old }
{
    export_answers::coded(pulses::encode(command, out))
}

#[unsafe(no_mangle)]
pub extern "C" fn sporedrift_verdict(command: &[u8]) -> u32
    ensures { result ≡ coded truth (judged command.now) }
{
    export_answers::coded(pulses::verdict(command))
}

#[unsafe(no_mangle)]
pub extern "C" fn sporedrift_page_screen(page: &[u8], screen: &mut [u8]) -> u32
    ensures value { result ≡ coded value (page_screen_answer page.now screen.old) }
    ensures screen_after { screen.new ≡ page_screen_left page.now screen.old }
{
    export_answers::coded(pages::page_screen(page, screen))
}
