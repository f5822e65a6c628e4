//! Ends with the site at which their reactor sleeps.
ghost use Rattle.std.specs.Prelude.{◌≡◌};

use std::alloc::Global;
use std::net::Net as Sockets;
use std::sync::{Arc, Wait};
use std::time::Duration;
use sw_base::OutOfMemory;
use sw_data::Ended;
use sw_link::{Back, Ends};
use sw_mio::{MioLink, Site};
use sw_parts::{Bell, Edge};

/// Ends of a reactor whose links are sockets. Its site is opened once its bell is asked for; where the system has none left, links
/// aren't polled for, and each of their calls is made.
#[derive(Drop)]
pub struct Sited<E, R> {
    ends: E,
    rt: R,
    site: Option<Site>,
}

impl<E, R> Sited<E, R> {
    /// These ends, without a site yet.
    pub fn new(rt: R, ends: E) -> Sited<E, R>
        ensures { result.ends ≡ ends }
    {
        Sited {
            ends,
            rt,
            site: None,
        }
    }

    /// Lends the ends.
    pub fn ends(&self) -> &E
        ensures { result.now ≡ self.now.ends }
    {
        &self.ends
    }
}

impl<E: Ends<MioLink>, R> Ends<MioLink> for Sited<E, R> {
    ghost kept = { λ s. E.kept s.ends };

    ghost put_gives = { λ s link ended kept t. E.put_gives s.ends link ended kept t.ends };

    fn put(&mut self, link: MioLink, ended: Ended) -> Result<(), Back<MioLink>> {
        self.ends.put(link, ended)
    }
}

impl<E: Ends<MioLink>, R: Sockets + Copy + Drop> Edge<MioLink> for Sited<E, R> {
    fn bell(&mut self, alloc: Global) -> Result<Bell, OutOfMemory> {
        let Ok(site) = Site::new(&self.rt, alloc) else {
            return Ok(Bell::new(alloc)?);
        };
        let Ok(bell) = site.bell() else {
            return Ok(Bell::new(alloc)?);
        };
        self.site = Some(site);
        Ok(Bell::Polled(bell))
    }

    fn adopt(&mut self, slot: u32, link: &mut MioLink) {
        if let Some(site) = &mut self.site {
            let _ = site.adopt(slot as usize, link);
        }
    }

    fn look(&mut self) {
        if let Some(site) = &mut self.site {
            let _ = site.look();
        }
    }

    fn sleep<W: Wait>(&mut self, rt: &W, bell: &Bell, most: u64) {
        match &mut self.site {
            Some(site) => {
                let _ = site.sleep(Duration::from_millis(most));
            }
            None => bell.sleep(rt, most),
        }
    }
}
