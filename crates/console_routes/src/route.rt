//! The routes of the console.
ghost use Rattle.std.specs.Prelude.{◌≡◌};
ghost use Rattle.console_routes.specs.Routes as spec;

/// A route of the console, by its path.
#[derive(Clone, Copy)]
pub enum Route {
    /// `/classes`
    Classes,
    /// `/due`
    Due,
    /// `/files`
    Files,
    /// `/hear/dhcp`
    HearDhcp,
    /// `/hear/lldp`
    HearLldp,
    /// `/holds`
    Holds,
    /// `/leases`
    Leases,
    /// `/locals`
    Locals,
    /// `/names`
    Names,
    /// `/packets`
    Packets,
    /// `/revokes`
    Revokes,
    /// `/things`
    Things,
    /// `/verdicts`
    Verdicts,
    /// `/why`
    Why,
}

impl Route {
    /// The path of the route.
    #[tactic(auto, unfolding(crate::specs::Routes::text_of))]
    pub fn path(self) -> &'static str
        ensures { result.now ≡ spec.text_of self }
    {
        match self {
            Route::Classes => "/classes",
            Route::Due => "/due",
            Route::Files => "/files",
            Route::HearDhcp => "/hear/dhcp",
            Route::HearLldp => "/hear/lldp",
            Route::Holds => "/holds",
            Route::Leases => "/leases",
            Route::Locals => "/locals",
            Route::Names => "/names",
            Route::Packets => "/packets",
            Route::Revokes => "/revokes",
            Route::Things => "/things",
            Route::Verdicts => "/verdicts",
            Route::Why => "/why",
        }
    }
}
