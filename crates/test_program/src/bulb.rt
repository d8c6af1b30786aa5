//! Usage files.

/// The file of the example of RFC 8520, 9, a light bulb, for IPv4 alone, with an entry for Things of the
/// same maker.
pub(crate) const BULB: &[u8] =
    br#"{"ietf-mud:mud":{"mud-version":1,"mud-url":"https://lighting.example.com/lightbulb2000","last-update":"2019-01-28T11:20:51+01:00","cache-validity":48,"is-supported":true,"systeminfo":"The BMS Example Light Bulb","from-device-policy":{"access-lists":{"access-list":[{"name":"v4fr"}]}},"to-device-policy":{"access-lists":{"access-list":[{"name":"v4to"}]}}},"ietf-access-control-list:acls":{"acl":[{"name":"v4to","type":"ipv4-acl-type","aces":{"ace":[{"name":"cl0-todev","matches":{"ipv4":{"ietf-acldns:src-dnsname":"test.example.com","protocol":6},"tcp":{"ietf-mud:direction-initiated":"from-device","source-port":{"operator":"eq","port":443}}},"actions":{"forwarding":"accept"}}]}},{"name":"v4fr","type":"ipv4-acl-type","aces":{"ace":[{"name":"cl0-frdev","matches":{"ipv4":{"ietf-acldns:dst-dnsname":"test.example.com","protocol":6},"tcp":{"ietf-mud:direction-initiated":"from-device","destination-port":{"operator":"eq","port":443}}},"actions":{"forwarding":"accept"}},{"name":"mfg-frdev","matches":{"ietf-mud:mud":{"same-manufacturer":[null]}},"actions":{"forwarding":"accept"}}]}}]}}"#;

/// A switch of the same maker, which may only answer what Things of that maker begin, and to which
/// nothing may be sent.
pub(crate) const SWITCH: &[u8] =
    br#"{"ietf-mud:mud":{"mud-version":1,"mud-url":"https://lighting.example.com/switch1","last-update":"2019-01-28T11:20:51+01:00","cache-validity":48,"is-supported":true,"systeminfo":"The BMS Example Light Bulb","from-device-policy":{"access-lists":{"access-list":[{"name":"v4fr"}]}},"to-device-policy":{"access-lists":{"access-list":[{"name":"v4to"}]}}},"ietf-access-control-list:acls":{"acl":[{"name":"v4to","type":"ipv4-acl-type","aces":{"ace":[]}},{"name":"v4fr","type":"ipv4-acl-type","aces":{"ace":[{"name":"answers","matches":{"ietf-mud:mud":{"same-manufacturer":[null]},"tcp":{"ietf-mud:direction-initiated":"to-device"}},"actions":{"forwarding":"accept"}}]}}]}}"#;
