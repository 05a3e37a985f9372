// A line of a log, and which version of the calls this is.
ghost use Rattle.std.specs.Prelude.{◌≡◌};
ghost use Rattle.log_line.specs.Calls.{line_answer, line_bytes};
ghost use Rattle.export_answers.specs.Coded.{coded, value, content};

#[unsafe(no_mangle)]
pub extern "C" fn sporedrift_parse_line(text: &[u8], bytes: &mut [u8]) -> u32
    ensures value { result ≡ coded content (line_answer text.now bytes.old) }
    ensures bytes_after { bytes.new ≡ line_bytes text.now bytes.old }
{
    export::reading::sporedrift_parse_line(text, bytes)
}

#[unsafe(no_mangle)]
pub extern "C" fn sporedrift_version() -> u32
    ensures { result ≡ value 1024 }
{
    export::reading::sporedrift_version()
}
