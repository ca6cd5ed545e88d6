//! What a request asks for and where it came from: the parts of a request line, URLs, static files, the site that
//! a referrer names and the phrase that was searched for there.
//!
//! Start with `split_request`, `decode_url` and `referral_of`. `specs/Requests.antt` says what a request line is,
//! `specs/Urls.antt` what a URL and a static file are, `specs/Referrers.antt` what a referrer says, and
//! `specs/Tables.antt` has the known methods, protocols and extensions. `laws` says that each has one meaning;
//! `specs/Steps.antt` has the words of inner steps alone.
#![tactic(auto)]

mod before_byte;
pub mod laws;
mod referrers;
mod splitting;
mod tables;
mod urls;

pub use referrers::{Referral, keyphrase, referral_of, referring_site, site_of};
pub use splitting::{Parts, split_request};
pub use tables::{is_method, is_protocol};
pub use urls::{decode_url, decoded_url, is_static, is_static_url, without_query};
