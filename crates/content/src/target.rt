/// The names of a route's template and data.
#[derive(Drop)]
pub(crate) struct Target {
    pub template: String,
    pub page_data: String,
}
