//! What another generator wrote, as the folder of a site.
//!
//! `template.rt` makes the template that shows a page as it is. `route.rt` gives the path of a file's page,
//! `refresh.rt` the address to which a page leads on, and `leading.rt` the path of the same site that this
//! address means. `imported_page.rt` checks one file, `imported.rt` all of them: the files of the folder, and
//! what is left out. `importing.rt` reads and writes them: what real files give and take is tested, not
//! proved.
#![tactic(auto)]

mod imported;
mod imported_page;
mod importing;
mod leading;
mod left_out;
mod refresh;
mod route;
mod template;

pub use imported::{Imported, LedOn, SiteText, import_of};
pub use imported_page::{ImportedPage, page_of};
pub use importing::import;
pub use left_out::{LeftOut, NotTaken};
pub use refresh::alias_of;
pub use route::route_of;
pub use template::template_of;
