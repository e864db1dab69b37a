// What the program says of its input: its seven numbers. It reads the input in pieces, as they come.
#![tactic(auto)]

ghost use Rattle.std.specs.Prelude.{◌≡◌};
ghost use Rattle.report.specs.Report.{lines, StartedAs, ReadOnAs, SaidAs};

use reader::{Answer, Reader};

// Annex II and Annex I of source document 000, in document order.
const ANNEX_II: [u8; 312] = *b"\
    AFEGALDZAOAGGQARAMAWAZETAUBSBHBDBBBZBMBT\
    BOBABWBRBNBIKYCLCNCRCWDODJCISVECERSZFKFO\
    FJPFGAGMGEGHGIGLGBGTGGGNGYHTHNHKINIDIQIM\
    ILJMJPYEJEJOKHCMCACVKZQAKEKGCOCDXKKWLALS\
    LBLYMOMGMWMYMVMLMAMUMXMDMNMEMZNANPNZNIAN\
    NENGMKOMPKPWPAPGPYPEPHPRCGRWRUSBZMWSSASN\
    RSSCSLZWSGSOSJLKSHKNZAKRSSSRTJTWTZTHTGTO\
    TTTDTNTRTMTCUGUAUYUSUZVUAEVNBYCF";

const ANNEX_I: [u8; 44] = *b"ARBOBRCLCRDOSVECGTGBHNCACOMXNIPAPYPEPRUYUSVE";

// The code page that the program reads text by: ISO 8859-1.
const PAGE: u32 = 1;

#[derive(Drop)]
pub struct Report {
    pub verdict: usize,
    pub rec: usize,
    pub at: usize,
    pub payments: usize,
    pub euros: u64,
    pub cents: u64,
    pub changes: usize,
}

impl From<Answer> for Report {
    ghost from_gives = { λ answer report. report ≡ lines answer };

    fn from(answer: Answer) -> Self {
        Self {
            verdict: answer.verdict.number,
            rec: answer.verdict.rec,
            at: answer.verdict.at,
            payments: answer.verdict.payments,
            euros: answer.verdict.euros,
            cents: answer.verdict.cents,
            changes: answer.changes,
        }
    }
}

// Before anything was read.
pub fn start() -> Reader
    ensures { StartedAs result }
{
    Reader::new(PAGE)
}

// The next piece of the input.
pub fn read_on(reader: Reader, piece: &[u8]) -> Reader
    ensures { ReadOnAs reader piece.now result }
{
    reader.feed(piece, &ANNEX_II, &ANNEX_I)
}

// What is told where the input ends. No number is taken.
#[tactic(auto, unfolding(crate::specs::Report::said_of))]
pub fn tell(reader: Reader) -> Report
    ensures { SaidAs reader result }
{
    Report::from(reader.end(&[]).answer)
}
