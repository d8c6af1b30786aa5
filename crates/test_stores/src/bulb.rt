//! A light bulb, its usage file, and who it speaks to.
use mud_base::{Addr, Mac};

/// The bulb.
pub(crate) const MAC: Mac = Mac([2, 0, 0, 0, 0, 1]);

/// Its MUD URL.
pub(crate) const URL: &[u8] = b"https://lighting.example.com/lightbulb2000";

/// Its address, 192.0.2.10.
pub(crate) const ADDRESS: Addr = Addr::V4(0xC000_020A);

/// The class of DNS servers (RFC 8520, 4.6), and the address of one, 192.0.2.53.
pub(crate) const CLASS: &[u8] = b"urn:ietf:params:mud:dns";

pub(crate) const RESOLVER: Addr = Addr::V4(0xC000_0235);

/// The name of its server, and the server's address, 198.51.100.7.
pub(crate) const NAME: &[u8] = b"test.example.com";

pub(crate) const SERVER: Addr = Addr::V4(0xC633_6407);

/// The usage file of the example of RFC 8520, 9, for IPv4 alone, with an entry for Things of the same
/// maker.
pub(crate) const FILE: &[u8] =
    br#"{"ietf-mud:mud":{"mud-version":1,"mud-url":"https://lighting.example.com/lightbulb2000","last-update":"2019-01-28T11:20:51+01:00","cache-validity":48,"is-supported":true,"systeminfo":"The BMS Example Light Bulb","from-device-policy":{"access-lists":{"access-list":[{"name":"v4fr"}]}},"to-device-policy":{"access-lists":{"access-list":[{"name":"v4to"}]}}},"ietf-access-control-list:acls":{"acl":[{"name":"v4to","type":"ipv4-acl-type","aces":{"ace":[{"name":"cl0-todev","matches":{"ipv4":{"ietf-acldns:src-dnsname":"test.example.com","protocol":6},"tcp":{"ietf-mud:direction-initiated":"from-device","source-port":{"operator":"eq","port":443}}},"actions":{"forwarding":"accept"}}]}},{"name":"v4fr","type":"ipv4-acl-type","aces":{"ace":[{"name":"cl0-frdev","matches":{"ipv4":{"ietf-acldns:dst-dnsname":"test.example.com","protocol":6},"tcp":{"ietf-mud:direction-initiated":"from-device","destination-port":{"operator":"eq","port":443}}},"actions":{"forwarding":"accept"}},{"name":"mfg-frdev","matches":{"ietf-mud:mud":{"same-manufacturer":[null]}},"actions":{"forwarding":"accept"}}]}}]}}"#;

/// Its SHA-256 in hex digits.
pub(crate) const DIGEST: &[u8] =
    b"fde1333bdb4a776cc061761cd6a3b72458b458493e4ada81dc79bc7956eb2096";
