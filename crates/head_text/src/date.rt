ghost use Rattle.std.specs.Prelude.{◌≡◌, ◌<◌, IfSome, IsNone};
ghost use Rattle.httpdate.specs.Date.{unix_secs, parse_secs, IsDateText};
ghost use Rattle.httpdate.specs.declared.date.HttpDate.{HttpDate as Date};
ghost use Rattle.head_text.specs.DateText.{http_date};

use httpdate::HttpDate;

/// The text of the date with this second since 1970, as `Sun, 06 Nov 1994 08:49:37 GMT` (RFC 9110, section 5.6.7). The second is
/// before the year 10000.
pub fn date_text(secs: u64) -> [u8; 29]
    requires { secs < 253_402_300_800 }
    ensures { result ≡ http_date secs }
{
    match HttpDate::from_unix_secs(secs) {
        Ok(date) => date.to_bytes(),
        Err(_) => unreachable!(),
    }
}

/// The whole seconds since 1970 of a date in a header, in one of the three forms of RFC 9110, section 5.6.7, with nothing round it:
/// `None` exactly for another text. A date is from 1970 to 9999 and names its day of the week rightly.
pub fn read_date(text: &[u8]) -> Option<u64>
    ensures value { result ≡ parse_secs text.now }
    ensures found { IfSome result (λ secs. (date : Date) × IsDateText text.now date × (unix_secs date ≡ secs)) }
    ensures only { IsNone result → (date : Date) → ¬ (IsDateText text.now date) }
{
    match HttpDate::parse_ascii(text) {
        Ok(date) => Some(date.unix_secs()),
        Err(_) => None,
    }
}
